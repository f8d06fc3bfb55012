// Makes the call for a line's case: those of the C interface by their exported functions, and those that print.
#![tactic(auto)]

ghost use Rattle.std.specs.Prelude.{◌≤◌, length};

use founded::{
    founded_bounds, founded_check, founded_flatten, founded_least, founded_normalize, founded_read,
};
use listing::list;
use parsing::{Case, Line};
use printing::print;

// What the call for a case answers: a packed answer, or how many bytes the text has. The second bytes are an assignment, lent ranges, or the file
// that is said to be written.
fn answered(case: Case, file: &[u8], second: &[u8], lent: &mut [u8]) -> u64 {
    match case {
        Case::Read => founded_read(file),
        Case::Least => founded_least(file, second, lent),
        Case::Check => founded_check(file, second, lent),
        Case::Bounds => founded_bounds(file, second, lent),
        Case::Normalize => founded_normalize(file, lent),
        Case::NormalizeAgain => founded_normalize(second, lent),
        Case::Flatten => founded_flatten(file, lent),
        Case::FlattenAgain => founded_flatten(second, lent),
        Case::Print | Case::PrintShort => print(file, lent) as u64,
        Case::List | Case::ListShort => list(file, lent) as u64,
        Case::Begin | Case::Beginning | Case::Comment | Case::Bad => 0,
    }
}

// Lends a part of the room; answers as `answered` does.
pub fn tried(room: &mut [u8], bytes: &[u8], line: Line) -> u64
    requires file_le_all { line.file ≤ line.all }
    requires all_in_bounds { line.all ≤ length bytes.now }
    requires from_le_to { line.from ≤ line.to }
    requires to_in_bounds { line.to ≤ length room.old }
{
    let file = line.file;
    let all = line.all;
    let from = line.from;
    let to = line.to;
    answered(
        line.case,
        &bytes[..file],
        &bytes[file..all],
        &mut room[from..to],
    )
}
