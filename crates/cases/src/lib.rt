// The cases of the table of `samples`.
#![tactic(auto)]

ghost use Rattle.std.specs.Prelude.{◌≤◌, length};

use guarding::patterned;
use parsing::{Case, Line, again, is_said, next};
use showing::{opened, show};
use std::io;
use std::io::Write;
use stepping::searched;
use trying::tried;

// Tries a line's case in a room that has the pattern, and prints what it answers.
fn once<W: Write>(out: &mut W, room: &mut [u8], bytes: &[u8], line: Line) -> io::Result<()>
    requires file_le_all { line.file ≤ line.all }
    requires all_in_bounds { line.all ≤ length bytes.now }
    requires from_le_to { line.from ≤ line.to }
    requires to_in_bounds { line.to ≤ length room.old }
{
    patterned(room);
    let answer = tried(room, bytes, line);
    show(out, room, bytes, line, answer)
}

// Tries a line's case and, where it says which file is written, this file too; a search has a room of its own.
fn case<W: Write>(out: &mut W, room: &mut [u8], bytes: &[u8], line: Line) -> io::Result<()>
    requires file_le_all { line.file ≤ line.all }
    requires all_in_bounds { line.all ≤ length bytes.now }
    requires from_le_to { line.from ≤ line.to }
    requires to_in_bounds { line.to ≤ length room.old }
{
    let file = line.file;
    if line.case == Case::Begin {
        return searched(out, &bytes[..file], line.from, line.to);
    }
    once(out, room, bytes, line)?;
    if is_said(line) {
        once(out, room, bytes, again(line))?;
    }
    Ok(())
}

// Tries each line's case; `number` counts the lines, and `begun` how many bytes come before a case's own.
pub fn each<W: Write>(
    out: &mut W,
    table: &[u8],
    bytes: &mut [u8],
    room: &mut [u8],
) -> io::Result<()> {
    let mut begun = 0;
    let mut number = 0;
    let mut at = 0;
    while at < table.len() {
        number += 1;
        let line = opened(out, bytes, begun, table, at, number, room.len())?;
        case(out, room, bytes, line)?;
        begun = line.begun;
        at = next(table, at);
    }
    Ok(())
}
