// The word and the numbers of each answer, and how they are packed.
#![tactic(auto)]

ghost use Rattle.std.specs.Prelude.{◌≡◌, Ok};
ghost use Rattle.program.specs.Reading as read;
ghost use Rattle.meaning.specs.Calls.{denial_number, denial_place};
ghost use Rattle.meaning.specs.LeastCall as least;
ghost use Rattle.verdict.specs.Checks as check;
ghost use Rattle.normal.specs.Normalizes as normalize;
ghost use Rattle.search.specs.BeginCall as begin;
ghost use Rattle.lent.specs.BoundsCall as bounds;
ghost use Rattle.packing.specs.Packing.{parts, Fits, packed, read_parts, least_parts, check_parts, length_parts, normalize_parts, begin_parts, bounds_parts};

use calls::{denial_number, denial_place};
use meaning::{Denied, Solved};
use program::{Counts, Rejection, number_of};
use verdict::Verdict;

// An answer's word and its numbers, 0 where there is none.
#[derive(Clone, Copy)]
pub struct Parts {
    pub word: usize,
    pub first: usize,
    pub second: usize,
    pub third: usize,
}

#[derive(Drop)]
pub struct Word {}

impl Word {
    pub const STABLE: usize = 1;

    pub const UNFOUNDED: usize = 2;

    pub const CONSTRAINT: usize = 3;

    pub const RULE: usize = 4;

    pub const RANGE: usize = 5;

    pub const REFUSED: usize = 6;

    pub const ACCEPTED: usize = 7;

    pub const FOUND: usize = 8;

    pub const NONE: usize = 9;

    pub const WRITTEN: usize = 10;

    pub const BEGUN: usize = 11;

    pub const BOUNDED: usize = 12;
}

fn alone(word: usize) -> Parts
    ensures { result ≡ parts word 0 0 0 }
{
    with_one(word, 0)
}

fn with_one(word: usize, first: usize) -> Parts
    ensures { result ≡ parts word first 0 0 }
{
    with_two(word, first, 0)
}

fn with_two(word: usize, first: usize, second: usize) -> Parts
    ensures { result ≡ parts word first second 0 }
{
    Parts {
        word,
        first,
        second,
        third: 0,
    }
}

fn of_denied(why: Denied) -> Parts
    ensures { result ≡ parts 6 (denial_number why) (denial_place why) 0 }
{
    with_two(Word::REFUSED, denial_number(why), denial_place(why))
}

pub fn of_reading(reading: Result<Counts, Rejection>) -> Parts
    ensures { result ≡ read_parts (read.answer_of reading) }
{
    match reading {
        Ok(counts) => Parts {
            word: Word::ACCEPTED,
            first: counts.variables,
            second: counts.rules,
            third: counts.constraints,
        },
        Err(Rejection { why, at }) => with_two(Word::REFUSED, number_of(why), at),
    }
}

// What `least` answers where it is not turned down.
fn of_found(solved: Solved) -> Parts
    ensures { result ≡ least_parts (least.answer_of (Ok solved)) }
{
    match solved {
        Solved::Range(v) => with_one(Word::RANGE, v),
        Solved::Nothing => alone(Word::NONE),
        Solved::Found => alone(Word::FOUND),
    }
}

pub fn of_solved(solved: Result<Solved, Denied>) -> Parts
    ensures { result ≡ least_parts (least.answer_of solved) }
{
    match solved {
        Err(why) => of_denied(why),
        Ok(solved) => of_found(solved),
    }
}

// What `check` answers where it is not turned down.
fn of_judged(verdict: Verdict) -> Parts
    ensures { result ≡ check_parts (check.answer_of (Ok verdict)) }
{
    match verdict {
        Verdict::Range(v) => with_one(Word::RANGE, v),
        Verdict::Rule(i) => with_one(Word::RULE, i),
        Verdict::Constraint(i) => with_one(Word::CONSTRAINT, i),
        Verdict::Unfounded(bounds, conditions) => with_two(Word::UNFOUNDED, bounds, conditions),
        Verdict::Stable => alone(Word::STABLE),
    }
}

pub fn of_verdict(verdict: Result<Verdict, Denied>) -> Parts
    ensures { result ≡ check_parts (check.answer_of verdict) }
{
    match verdict {
        Err(why) => of_denied(why),
        Ok(verdict) => of_judged(verdict),
    }
}

// The word of a length, and its two halves.
fn of_length(n: usize) -> Parts
    ensures { result ≡ length_parts n }
{
    with_two(Word::WRITTEN, n % 65536, n / 65536)
}

pub fn of_rewriting(rewriting: Result<usize, Denied>) -> Parts
    ensures { result ≡ normalize_parts (normalize.answer_of rewriting) }
{
    match rewriting {
        Err(why) => of_denied(why),
        Ok(n) => of_length(n),
    }
}

pub fn of_beginning(beginning: Result<usize, Denied>) -> Parts
    ensures { result ≡ begin_parts (begin.answer_of beginning) }
{
    match beginning {
        Err(why) => of_denied(why),
        Ok(n) => with_one(Word::BEGUN, n),
    }
}

pub fn of_bounding(bounding: Result<(), Denied>) -> Parts
    ensures { result ≡ bounds_parts (bounds.answer_of bounding) }
{
    match bounding {
        Err(why) => of_denied(why),
        Ok(()) => alone(Word::BOUNDED),
    }
}

// The word in bits 0 to 7, the numbers from bits 8, 24 and 40 on.
pub fn pack(p: Parts) -> u64
    requires { Fits p }
    ensures { result ≡ packed p }
{
    (p.word + 256 * (p.first + 65536 * (p.second + 65536 * p.third))) as u64
}
