// Prints what a call wrote into a part of a larger room, and whether every other byte of the room is as it was; of a room of words the latter.
#![tactic(auto)]

ghost use Rattle.std.specs.Prelude.{◌≤◌, length};

use report::writing::Mark;
use std::io::Write;
use std::{fmt, io};

// What a room has at each place, with what the pattern has there.
pub trait Cell: Copy + PartialEq {
    fn at(i: usize) -> Self;
}

impl Cell for u8 {
    fn at(i: usize) -> u8 {
        (i % 199 + 50) as u8
    }
}

// A word, of which each byte is the pattern's.
impl Cell for u64 {
    fn at(i: usize) -> u64 {
        u64::from_be_bytes([u8::at(i); 8])
    }
}

// Gives the room the pattern, which begins again after each 199 places.
pub fn patterned<T: Cell>(room: &mut [T]) {
    for part in room.chunks_mut(199) {
        for (i, x) in part.iter_mut().enumerate() {
            *x = T::at(i);
        }
    }
}

// Whether each place but those from `start` on and below `end` has what the pattern has.
pub fn is_kept<T: Cell>(room: &[T], start: usize, end: usize) -> bool {
    room.iter()
        .enumerate()
        .all(|(i, &x)| (start..end).contains(&i) || x == T::at(i))
}

// An entry of a report: its variable, its mark and its number.
#[derive(Drop)]
struct Entry {
    variable: u8,
    mark: u8,
    number: i16,
}

impl fmt::Display for Entry {
    fn fmt<W: fmt::Write>(&self, f: &mut fmt::Formatter<W>) -> fmt::Result {
        let v = self.variable;
        let number = self.number;
        match self.mark {
            Mark::BOUND => write!(f, "most {v} {number}"),
            Mark::AT_MOST => write!(f, "when {v} <= {number}"),
            Mark::AT_LEAST => write!(f, "when {v} >= {number}"),
            Mark::BOUND_ABOVE => write!(f, "least {v} {number}"),
            _ => write!(f, "no such mark {v} {number}"),
        }
    }
}

// What a call wrote, and so how it is printed.
#[derive(Clone, Copy)]
pub enum Shown<'a> {
    // Values, of two bytes each.
    Values,
    // A report's entries, of four bytes each.
    Report,
    // A file, which is said to have these bytes.
    File(&'a [u8]),
}

// Values, each of two bytes in two's complement.
fn values<W: Write>(out: &mut W, bytes: &[u8]) -> io::Result<()> {
    for pair in bytes.chunks_exact(2) {
        write!(out, " {}", i16::from_be_bytes([pair[0], pair[1]]))?;
    }
    Ok(())
}

// The entries of a report.
fn entries<W: Write>(out: &mut W, bytes: &[u8]) -> io::Result<()> {
    for four in bytes.chunks_exact(4) {
        let entry = Entry {
            variable: four[0],
            mark: four[1],
            number: i16::from_be_bytes([four[2], four[3]]),
        };
        write!(out, ", {entry}")?;
    }
    Ok(())
}

// Whether the bytes are those that are said, and else which they are, in hexadecimal digits.
fn compared<W: Write>(out: &mut W, bytes: &[u8], said: &[u8]) -> io::Result<()> {
    if bytes == said {
        return write!(out, ", as said");
    }
    write!(out, ", not as said:")?;
    for x in bytes {
        write!(out, " {x:02x}")?;
    }
    Ok(())
}

// Prints what a call wrote.
fn written<W: Write>(out: &mut W, shown: Shown<'_>, bytes: &[u8]) -> io::Result<()> {
    match shown {
        Shown::Values => values(out, bytes),
        Shown::Report => entries(out, bytes),
        Shown::File(said) => compared(out, bytes, said),
    }
}

// Prints whether all is as it was around what may be written.
pub fn tell_kept<W: Write>(out: &mut W, is_kept: bool) -> io::Result<()> {
    writeln!(out, ", guard {}", if is_kept { "kept" } else { "lost" })
}

// An answer says that more was written than was lent.
pub fn exceeded<W: Write>(out: &mut W) -> io::Result<()> {
    writeln!(out, ", more than was lent")
}

// Prints what was written, n bytes from the lent part's start on, and whether the other bytes are as they were.
pub fn guarded<W: Write>(
    out: &mut W,
    room: &[u8],
    shown: Shown<'_>,
    from: usize,
    to: usize,
    n: usize,
) -> io::Result<()>
    requires from_le_to { from ≤ to }
    requires to_in_bounds { to ≤ length room.now }
{
    if to - from < n {
        return exceeded(out);
    }
    let stop = from + n;
    written(out, shown, &room[from..stop])?;
    tell_kept(out, is_kept(room, from, stop))
}
