// A set of variables: one bit for each number.
#![tactic(auto)]

ghost use Rattle.std.specs.Prelude.{◌≡◌, ◌||◌, false, ℕ, eqb};
ghost use Rattle.format.specs.Limits.{max_variables};
ghost use Rattle.words.specs.Bit.{word_count, has, count_from, NextIs};

use words::{Words, next_bit};

// The words' bits are the numbers in order, the lowest bit first.
#[derive(Clone, Copy)]
pub struct Set {
    pub words: [u64; Set::WORDS],
}

impl Set {
    // The words of a set.
    pub const WORDS: usize = 4;

    // The constant of the code is that of the specification.
    pub fn quoted()
        ensures { Set.WORDS ≡ word_count }
    {}

    // The set that has nothing.
    pub fn empty() -> Self
        ensures { (i : ℕ) → has result.words i ≡ false }
    {
        Set {
            words: [0; Set::WORDS],
        }
    }

    // Whether the set has v.
    pub fn contains(self, v: u8) -> bool
        ensures { result ≡ has self.words v }
    {
        let at = v as usize;
        let w = self.words[at / Words::BITS];
        (w >> (at % Words::BITS)) % 2 == 1
    }

    // The set takes in v.
    pub fn insert(mut self, v: u8) -> Self
        ensures { (i : ℕ) → has result.words i ≡ (eqb i v || has self.words i) }
    {
        let at = v as usize;
        let k = at / Words::BITS;
        let one = 1u64 << (at % Words::BITS);
        self.words[k] = self.words[k] | one;
        self
    }

    // What either set has.
    pub fn union(self, other: Set) -> Self
        ensures { (i : ℕ) → has result.words i ≡ (has self.words i || has other.words i) }
    {
        let a = self.words[0] | other.words[0];
        let b = self.words[1] | other.words[1];
        let c = self.words[2] | other.words[2];
        let d = self.words[3] | other.words[3];
        Set {
            words: [a, b, c, d],
        }
    }

    // How many variables the set has.
    pub fn count(self) -> u32
        ensures { result ≡ count_from (has self.words) 0 max_variables }
    {
        let a = u64::count_ones(self.words[0]);
        let b = u64::count_ones(self.words[1]);
        let c = u64::count_ones(self.words[2]);
        let d = u64::count_ones(self.words[3]);
        a + b + c + d
    }

    // The least variable of the set at or above `from`.
    pub fn next(self, from: usize) -> Option<usize>
        ensures { NextIs (has self.words) from max_variables result }
    {
        next_bit(&self.words, from)
    }
}
