// The sets of a search and its components, printed for `samples`.
#![tactic(auto)]

ghost use Rattle.std.specs.Prelude.{◌≤◌, length};

use sets::Set;
use std::io;
use std::io::Write;

// The most variables whose sets and components are printed each by itself.
pub const FEW: usize = 16;

// The elements that the i-th of the sets' words says.
fn elements<W: Write>(out: &mut W, word: u64, i: usize) -> io::Result<()> {
    for y in 0..64 {
        if (word >> y) % 2 == 1 {
            write!(out, " {}", i % Set::WORDS * 64 + y)?;
        }
    }
    Ok(())
}

// The sum of the elements that the i-th word says.
fn sum_of(word: u64, i: usize) -> usize
    ensures { result ≤ 16320 }
{
    let mut sum = 0;
    for y in 0..64 {
        if (word >> y) % 2 == 1 {
            sum += i % Set::WORDS * 64 + y;
        }
    }
    sum
}

// A variable before its set.
fn variable<W: Write>(out: &mut W, x: usize) -> io::Result<()> {
    if 0 < x {
        write!(out, ";")?;
    }
    write!(out, " {x} ->")
}

// Each variable's set.
fn sets_listed<W: Write>(out: &mut W, sets: &[u64]) -> io::Result<()> {
    for (i, &word) in sets.iter().enumerate() {
        if i % Set::WORDS == 0 {
            variable(out, i / Set::WORDS)?;
        }
        elements(out, word, i)?;
    }
    Ok(())
}

// How many there are, and their sum.
fn in_all<W: Write>(out: &mut W, count: usize, sum: usize) -> io::Result<()> {
    write!(out, " {count} in all, sum {sum}")
}

// How many elements all sets have, and their sum.
fn sets_counted<W: Write>(out: &mut W, sets: &[u64]) -> io::Result<()>
    requires { length sets.now ≤ 2048 }
{
    let mut count = 0;
    let mut sum = 0;
    for (i, &word) in sets.iter().enumerate() {
        count += word.count_ones() as usize;
        sum += sum_of(word, i);
    }
    in_all(out, count, sum)
}

// The sets, or of many how many elements they have.
pub fn sets_shown<W: Write>(out: &mut W, sets: &[u64]) -> io::Result<()>
    requires { length sets.now ≤ 2048 }
{
    write!(out, ":")?;
    if sets.len() <= Set::WORDS * FEW {
        sets_listed(out, sets)?;
    } else {
        sets_counted(out, sets)?;
    }
    writeln!(out)
}

// The first variable of each one's component.
fn names_listed<W: Write>(out: &mut W, names: &[u8]) -> io::Result<()> {
    for name in names {
        write!(out, " {name}")?;
    }
    Ok(())
}

// How many components there are, by the variables that are the first of theirs, and the sum of the bytes.
fn names_counted<W: Write>(out: &mut W, names: &[u8]) -> io::Result<()>
    requires { length names.now ≤ 512 }
{
    let mut count = 0;
    let mut sum = 0;
    for (x, &name) in names.iter().enumerate() {
        let y = usize::from(name);
        if x == y {
            count += 1;
        }
        sum += y;
    }
    in_all(out, count, sum)
}

// The components, or of many how many there are.
pub fn names_shown<W: Write>(out: &mut W, names: &[u8]) -> io::Result<()>
    requires { length names.now ≤ 512 }
{
    if names.len() <= FEW {
        names_listed(out, names)
    } else {
        names_counted(out, names)
    }
}
