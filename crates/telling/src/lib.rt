// Reads the table, and prints an answer's word and numbers, and the text of the printing program.
#![tactic(auto)]

ghost use Rattle.std.specs.Prelude.{◌≡◌, length, IfOk, OnErr};
ghost use Rattle.telling.specs.Counts.{Counts};

use packing::{Parts, Word};
use std::io::{Read, Write};
use std::{fmt, io};

// An answer as it is printed: by its word and numbers.
#[derive(Clone, Copy)]
pub struct Told(pub Parts);

impl fmt::Display for Told {
    fn fmt<W: fmt::Write>(&self, f: &mut fmt::Formatter<W>) -> fmt::Result {
        let Parts {
            word,
            first,
            second,
            third,
        } = self.0;
        match word {
            Word::STABLE => write!(f, ": stable"),
            Word::UNFOUNDED => write!(f, ": unfounded {first} {second}"),
            Word::CONSTRAINT => write!(f, ": constraint {first}"),
            Word::RULE => write!(f, ": rule {first}"),
            Word::RANGE => write!(f, ": range {first}"),
            Word::REFUSED => write!(f, ": refused {first} {second}"),
            Word::ACCEPTED => write!(f, ": accepted {first} {second} {third}"),
            Word::FOUND => write!(f, ": found"),
            Word::NONE => write!(f, ": none"),
            Word::WRITTEN => write!(f, ": written {}", length_told(self.0)),
            Word::BEGUN => write!(f, ": begun {first}"),
            Word::BOUNDED => write!(f, ": bounded"),
            _ => write!(f, ": no such word"),
        }
    }
}

// The word and the numbers of an answer that is packed as include/founded.h says.
pub fn unpacked(answer: u64) -> Parts {
    Parts {
        word: (answer % 256) as usize,
        first: (answer / 256 % 65536) as usize,
        second: (answer / 16777216 % 65536) as usize,
        third: (answer / 1099511627776 % 65536) as usize,
    }
}

// The length that the word `written` goes with: its low half is the first number, its high half the second.
pub fn length_told(answer: Parts) -> usize {
    answer.first % 65536 + answer.second % 65536 * 65536
}

// The text of n bytes that an output holds; of a text that is longer than the output its length and what the output holds.
pub fn printed<W: Write>(out: &mut W, output: &[u8], n: usize) -> io::Result<()> {
    if n <= output.len() {
        writeln!(out, ":")?;
        out.write_all(&output[..n])
    } else {
        write!(out, ": {n} ")?;
        out.write_all(output)?;
        writeln!(out)
    }
}

// Room for the table, or for the bytes of a case.
pub fn space() -> [u8; 262144]
    ensures { 262144 ≡ length result }
{
    [0; 262144]
}

// Room for the outputs of the calls.
pub fn large_buffer() -> [u8; 65536]
    ensures { 65536 ≡ length result }
{
    [0; 65536]
}

// Reads until the table is full or the input ends, and answers how many bytes stand at the table's start.
pub fn read_full<R: Read>(input: &mut R, table: &mut [u8]) -> io::Result<usize>
    ensures ok { IfOk result (λ r. Counts r table.new) }
    ensures err { OnErr result (length table.new ≡ length table.old) }
{
    let mut done = 0;
    while done < table.len() {
        let n = input.read(&mut table[done..])?;
        if n == 0 {
            break;
        }
        done += n;
    }
    Ok(done)
}

// Reads the table and answers how many bytes it has; of one that does not fit nothing is taken.
pub fn taken<R: Read, W: Write>(input: &mut R, out: &mut W, table: &mut [u8]) -> io::Result<usize>
    ensures ok { IfOk result (λ r. Counts r table.new) }
    ensures err { OnErr result (length table.new ≡ length table.old) }
{
    let n = read_full(input, table)?;
    if n < table.len() {
        return Ok(n);
    }
    writeln!(out, "the table is too long")?;
    Ok(0)
}
