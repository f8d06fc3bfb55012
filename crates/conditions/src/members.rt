// Sets that take in a variable where a test holds.
ghost use Rattle.std.specs.Prelude.{◌≡◌, Bool, ◌||◌, ◌&&◌, ℕ, ◌<◌, ◌≤◌, eqb, ltb, length};
ghost use Rattle.format.specs.Limits.{max_variables};
ghost use Rattle.words.specs.Bit.{has, word_count};

use sets::Set;

// The set, with x where it is wanted.
pub fn with_if(set: Set, x: u8, wanted: bool) -> Set
    ensures { (v : ℕ) → has result.words v ≡ (has set.words v || (wanted && eqb x v)) }
{
    if wanted { set.insert(x) } else { set }
}

// The words of a set get the bit of x where it is wanted.
pub fn add_if(words: &mut [u64; Set::WORDS], x: usize, wanted: bool)
    requires { (x < max_variables) × (length words.old ≡ word_count) }
    ensures words_len { length words.new ≡ word_count }
    ensures by_index { (v : ℕ) → has words.new v ≡ (has words.old v || (wanted && eqb x v)) }
{
    if wanted {
        words::add_bit(words, x);
    }
}

// The variables that pass a test.
pub fn passing<F: Fn(usize) -> bool>(variables: usize, passes: F) -> Set
    requires variables_bound { variables ≤ max_variables }
    requires callable { (v : ℕ) → v < variables → F.pre passes v }
    ensures { (p : ℕ → Bool) → ((v : ℕ) → v < variables → (b : Bool) → F.post passes v b → b ≡ p v)
        → (v : ℕ) → has result.words v ≡ (ltb v variables && p v) }
{
    let mut words = [0u64; Set::WORDS];
    for v in 0..variables {
        add_if(&mut words, v, passes(v));
    }
    Set { words: words }
}
