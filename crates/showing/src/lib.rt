// A line's case: its head printed before it is tried, and its answer after.
#![tactic(auto)]

ghost use Rattle.std.specs.Prelude.{◌≡◌, ◌≤◌, length, IfOk, OnErr};

use guarding::{Shown, guarded};
use packing::{Parts, Word};
use parsing::{Case, Line, parsed};
use std::io;
use std::io::Write;
use telling::{Told, length_told, printed, unpacked};

// The head of a case: what is done, and its name; or the number of a line that is not written as it must be.
fn announce<W: Write>(out: &mut W, case: Case, name: &[u8], number: usize) -> io::Result<()> {
    match case {
        Case::Read => {}
        Case::Least => write!(out, "least of ")?,
        Case::Check => write!(out, "check of ")?,
        Case::Bounds => write!(out, "bounds of ")?,
        Case::Normalize => write!(out, "normalize of ")?,
        Case::Flatten => write!(out, "flatten of ")?,
        Case::Begin => write!(out, "begin of ")?,
        Case::Print | Case::PrintShort => write!(out, "print of ")?,
        Case::List | Case::ListShort => write!(out, "list of ")?,
        Case::Beginning | Case::Comment => return Ok(()),
        Case::NormalizeAgain | Case::FlattenAgain | Case::Bad => {
            return writeln!(out, "bad line {number}");
        }
    }
    out.write_all(name)
}

// Takes the line that starts at `at` apart, where there is a room of so many bytes, and prints its head.
pub fn opened<W: Write>(
    out: &mut W,
    bytes: &mut [u8],
    begun: usize,
    table: &[u8],
    at: usize,
    number: usize,
    room: usize,
) -> io::Result<Line>
    requires { at ≤ length table.now }
    ensures file_le_all { IfOk result (λ r. r.file ≤ r.all) }
    ensures all_in_bounds { IfOk result (λ r. r.all ≤ length bytes.new) }
    ensures from_le_to { IfOk result (λ r. r.from ≤ r.to) }
    ensures to_le_room { IfOk result (λ r. r.to ≤ room) }
    ensures err { OnErr result (length bytes.new ≡ length bytes.old) }
{
    let line = parsed(bytes, begun, table, at, room);
    let start = line.start;
    let colon = line.colon;
    announce(out, line.case, &table[start..colon], number)?;
    Ok(line)
}

// How many bytes are written with an answer, where the second bytes of the case are so many: as many values for `found`, two bytes for each range of four for
// `bounded`, or the entries of `unfounded`, of which no report has 1,024.
fn length_of(answer: Parts, second: usize) -> usize {
    match answer.word {
        Word::FOUND => second,
        Word::BOUNDED => second / 2,
        Word::UNFOUNDED => 4 * (answer.first % 1024 + answer.second % 1024),
        _ => 0,
    }
}

// Prints the answer of a call, what it wrote and whether the rest of the room is as it was.
fn called<W: Write>(
    out: &mut W,
    room: &[u8],
    shown: Shown<'_>,
    line: Line,
    answer: Parts,
) -> io::Result<()>
    requires file_le_all { line.file ≤ line.all }
    requires from_le_to { line.from ≤ line.to }
    requires to_in_bounds { line.to ≤ length room.now }
{
    write!(out, "{}", Told(answer))?;
    let n = length_of(answer, line.all - line.file);
    guarded(out, room, shown, line.from, line.to, n)
}

// Prints the answer of a call that writes a file, whether it wrote the one that is said, and whether the rest of the room is as it was.
fn renewed<W: Write>(
    out: &mut W,
    room: &[u8],
    said: &[u8],
    line: Line,
    answer: Parts,
) -> io::Result<()>
    requires from_le_to { line.from ≤ line.to }
    requires to_in_bounds { line.to ≤ length room.now }
{
    write!(out, "{}", Told(answer))?;
    let (shown, n) = if answer.word == Word::WRITTEN {
        (Shown::File(said), length_told(answer))
    } else {
        (Shown::Values, 0)
    };
    guarded(out, room, shown, line.from, line.to, n)
}

// Prints what the call for a line's case answered: a packed answer, or how many bytes the text has.
pub fn show<W: Write>(
    out: &mut W,
    room: &[u8],
    bytes: &[u8],
    line: Line,
    answer: u64,
) -> io::Result<()>
    requires file_le_all { line.file ≤ line.all }
    requires from_le_to { line.from ≤ line.to }
    requires to_in_bounds { line.to ≤ length room.now }
    requires all_in_bounds { line.all ≤ length bytes.now }
{
    let to = line.to;
    let file = line.file;
    let all = line.all;
    let said = &bytes[file..all];
    match line.case {
        Case::Read => writeln!(out, "{}", Told(unpacked(answer))),
        Case::Check => called(out, room, Shown::Report, line, unpacked(answer)),
        Case::Least | Case::Bounds => called(out, room, Shown::Values, line, unpacked(answer)),
        Case::Normalize | Case::Flatten => renewed(out, room, said, line, unpacked(answer)),
        Case::NormalizeAgain | Case::FlattenAgain => {
            write!(out, "again")?;
            renewed(out, room, said, line, unpacked(answer))
        }
        Case::Print | Case::PrintShort | Case::List | Case::ListShort => {
            printed(out, &room[..to], answer as usize)
        }
        Case::Begin | Case::Beginning | Case::Comment | Case::Bad => Ok(()),
    }
}
