// Sets of numbers of any size, on lent words: the lowest bit of the first word is number 0.
#![tactic(auto)]

ghost use Rattle.std.specs.Prelude.{◌≡◌, ◌||◌, ◌&&◌, not, ℕ, ◌*◌, ◌/◌, ◌≤◌, ◌<◌, eqb, ltb, length};
ghost use Rattle.words.specs.Bit.{word_bits, most_words, has, NextIs};

#[derive(Drop)]
pub struct Words {}

impl Words {
    // The bits of a word.
    pub const BITS: usize = 64;

    // The constant of the code is that of the specification.
    pub fn quoted()
        ensures { Words.BITS ≡ word_bits }
    {}
}

// Whether the set has i.
pub fn has_bit(words: &[u64], i: usize) -> bool
    requires { i / word_bits < length words.now }
    ensures { result ≡ has words.now i }
{
    let w = words[i / Words::BITS];
    (w >> (i % Words::BITS)) % 2 == 1
}

// The set takes in i.
pub fn add_bit(words: &mut [u64], i: usize)
    requires { i / word_bits < length words.old }
    ensures words_len_unchanged { length words.new ≡ length words.old }
    ensures by_index { (j : ℕ) → has words.new j ≡ (eqb j i || has words.old j) }
{
    let at = i / Words::BITS;
    let one = 1u64 << (i % Words::BITS);
    words[at] = words[at] | one;
}

// The set loses i.
pub fn drop_bit(words: &mut [u64], i: usize)
    requires { i / word_bits < length words.old }
    ensures words_len_unchanged { length words.new ≡ length words.old }
    ensures by_index { (j : ℕ) → has words.new j ≡ (not (eqb j i) && has words.old j) }
{
    if has_bit(words, i) {
        let at = i / Words::BITS;
        words[at] = words[at] - (1u64 << (i % Words::BITS));
    }
}

// The set takes in the numbers below n.
pub fn fill_bits(words: &mut [u64], n: usize)
    requires { n ≤ word_bits * length words.old }
    ensures words_len_unchanged { length words.new ≡ length words.old }
    ensures by_index { (j : ℕ) → has words.new j ≡ (ltb j n || has words.old j) }
{
    for i in 0..n {
        add_bit(words, i);
    }
}

// The set takes in another of as many words.
pub fn join_bits(words: &mut [u64], others: &[u64])
    requires { length others.now ≡ length words.old }
    ensures words_len_unchanged { length words.new ≡ length words.old }
    ensures by_index { (j : ℕ) → has words.new j ≡ (has words.old j || has others.now j) }
{
    for (t, word) in words.iter_mut().enumerate() {
        *word |= others[t];
    }
}

// The least number of the set at or above `from`.
pub fn next_bit(words: &[u64], from: usize) -> Option<usize>
    requires { length words.now ≤ most_words }
    ensures { NextIs (has words.now) from (word_bits * length words.now) result }
{
    let end = words.len() * Words::BITS;
    let mut at = from;
    while at < end {
        let w = words[at / Words::BITS] >> (at % Words::BITS);
        if w != 0 {
            let zeros = u64::trailing_zeros(w) as usize;
            let found = at + zeros;
            return Some(found);
        }
        at = (at / Words::BITS + 1) * Words::BITS;
    }
    None
}
