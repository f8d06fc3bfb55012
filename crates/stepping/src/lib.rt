// The search of a file's components by the calls of the C interface, for `samples`: it is begun in a part of a larger room of words, stepped through and
// read off, and what the words and bytes say is printed each time.
#![tactic(auto)]

ghost use Rattle.std.specs.Prelude.{◌+◌, ◌*◌, ◌≤◌, length};

use founded::{founded_begin, founded_components, founded_step};
use guarding::{exceeded, is_kept, patterned, tell_kept};
use packing::Word;
use picturing::{FEW, names_shown, sets_shown};
use sets::Set;
use std::io;
use std::io::Write;
use telling::{Told, unpacked};

// The words of the room of which a search is lent a part.
const ROOM: usize = 2048;

// The words or bytes of a room before or after what is lent, at the least.
const GUARD: usize = 16;

// The room of which the call for the components is lent a part: a byte for each set that the other room has place for, and the guard.
const BYTES: usize = ROOM / Set::WORDS + 2 * GUARD;

// Which round it was, or that there is none.
fn round_told<W: Write>(out: &mut W, is_round: bool, k: usize) -> io::Result<()> {
    let word = if is_round { "round" } else { "no round" };
    write!(out, "  {word} {k}")
}

// Whether the sets of n variables are printed after the step for k: of few each time, of many where it was the last round or none.
fn is_told(is_round: bool, n: usize, k: usize) -> bool {
    n <= FEW || !is_round || n - 1 <= k
}

// The sets of n variables before the first round and after each step; the last step is for as many as there are, which is no round.
fn rounds<W: Write>(out: &mut W, sets: &mut [u64], n: usize) -> io::Result<()>
    requires { (4 * n ≤ length sets.old) × (length sets.old ≤ 2048) }
{
    let end = Set::WORDS * n;
    write!(out, "\n  edges")?;
    sets_shown(out, &sets[0..end])?;
    for k in 0..=n {
        let is_round = founded_step(sets, n, k);
        if is_told(is_round, n, k) {
            round_told(out, is_round, k)?;
            sets_shown(out, &sets[0..end])?;
        }
    }
    Ok(())
}

// The components that the sets of n variables say, written into a part of the room.
fn components<W: Write>(out: &mut W, sets: &[u64], n: usize, room: &mut [u8]) -> io::Result<()>
    requires { (16 + n ≤ length room.old) × (n ≤ 512) }
{
    let end = GUARD + n;
    let is_named = founded_components(sets, n, &mut room[GUARD..end]);
    let word = if is_named {
        "components"
    } else {
        "no components"
    };
    write!(out, "  {word}:")?;
    names_shown(out, &room[GUARD..end])
}

// Steps through the search of n variables in a part of the room and reads it off; prints whether every other word, and the bytes around those of the
// components, are as they were.
fn stepped<W: Write>(
    out: &mut W,
    room: &mut [u64],
    from: usize,
    to: usize,
    n: usize,
) -> io::Result<()>
    requires { (from ≤ to) × (to ≤ length room.old) × (length room.old ≤ 2048) }
{
    if (to - from) / Set::WORDS < n {
        return exceeded(out);
    }
    rounds(out, &mut room[from..to], n)?;
    let mut bytes = [0u8; BYTES];
    patterned(&mut bytes);
    components(out, &room[from..to], n, &mut bytes)?;
    let words = is_kept(room, from, from + Set::WORDS * n);
    tell_kept(out, words & is_kept(&bytes, GUARD, GUARD + n))
}

// Begins the search of a file in a part of the room, prints the answer and goes on.
fn begun<W: Write>(
    out: &mut W,
    room: &mut [u64],
    file: &[u8],
    from: usize,
    to: usize,
) -> io::Result<()>
    requires { (from ≤ to) × (to ≤ length room.old) × (length room.old ≤ 2048) }
{
    patterned(room);
    let answer = unpacked(founded_begin(file, &mut room[from..to]));
    write!(out, "{}", Told(answer))?;
    if answer.word == Word::BEGUN {
        stepped(out, room, from, to, answer.first)
    } else {
        tell_kept(out, is_kept(room, 0, 0))
    }
}

// Tries the search of a file in the words of a room from `from` on and below `to`.
pub fn searched<W: Write>(out: &mut W, file: &[u8], from: usize, to: usize) -> io::Result<()>
    requires { from ≤ to }
{
    if ROOM - GUARD < to {
        return writeln!(out, ": no room for so many words");
    }
    let mut room = [0u64; ROOM];
    begun(out, &mut room, file, from, to)
}
