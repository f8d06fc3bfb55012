// The terms of a body, of one kind.
ghost use Rattle.std.specs.Prelude.{◌≡◌, ℕ, true, false, ◌+◌, ◌*◌, ◌<◌, ◌≤◌, length};
ghost use Rattle.format.specs.Numbers.{signed, beyond};
ghost use Rattle.words.specs.Bit.{word_count};
ghost use Rattle.program.specs.Program.{terms_of, term_in};
ghost use Rattle.faultless.specs.Faultless.{Bare, Weight, Literal, Noted, New, EachFrom};

use format::{joined, wide};
use sets::Set;
use words::{add_bit, has_bit};

// Whether the number of two bytes lies in -m..m.
fn is_near(high: u8, low: u8, m: usize) -> bool
    requires { m < 32768 }
    ensures { result ≡ true → beyond m (signed high low) ≡ false }
{
    (joined(high, low) + m) % 65536 <= 2 * m
}

// Whether term i is plain and has number 0.
pub fn is_bare(body: &[u8], i: usize) -> bool
    requires { 4 * i + 4 ≤ length body.now }
    ensures { result ≡ true → Bare (term_in (terms_of body.now) i) }
{
    let op = body[4 * i + 1];
    let high = body[4 * i + 2];
    let low = body[4 * i + 3];
    if op != 0 {
        return false;
    }
    joined(high, low) == 0
}

// Whether term i is plain and its number is a coefficient.
fn is_weight(body: &[u8], i: usize) -> bool
    requires { 4 * i + 4 ≤ length body.now }
    ensures { result ≡ true → Weight (term_in (terms_of body.now) i) }
{
    let op = body[4 * i + 1];
    let high = body[4 * i + 2];
    let low = body[4 * i + 3];
    if op != 0 {
        return false;
    }
    if joined(high, low) == 0 {
        return false;
    }
    is_near(high, low, 1000)
}

// Whether term i is a literal.
fn is_literal(body: &[u8], i: usize) -> bool
    requires { 4 * i + 4 ≤ length body.now }
    ensures { result ≡ true → Literal (term_in (terms_of body.now) i) }
{
    let op = body[4 * i + 1];
    let high = body[4 * i + 2];
    let low = body[4 * i + 3];
    match op {
        1 | 2 => is_near(high, low, 30000),
        0 | 3..=255 => false,
    }
}

// Takes the variable of term i into the set of those before it: whether it is declared and new.
pub fn is_new(variables: usize, seen: &mut [u64; Set::WORDS], body: &[u8], i: usize) -> bool
    requires i_in_bounds { 4 * i + 4 ≤ length body.now }
    requires seen_len { (length seen.old ≡ word_count) × Noted seen.old (terms_of body.now) i }
    ensures seen_len_2 { length seen.new ≡ word_count }
    ensures new { result ≡ true → New variables (terms_of body.now) i × Noted seen.new (terms_of body.now) (i + 1) }
{
    let x = wide(body[4 * i]);
    if variables <= x {
        return false;
    }
    if has_bit(seen, x) {
        return false;
    }
    add_bit(seen, x);
    true
}

// Whether each term from this one on passes a test and is new; the set has the variables of those before it.
fn each_from<F: Fn(usize) -> bool>(
    passes: F,
    variables: usize,
    seen: &mut [u64; Set::WORDS],
    body: &[u8],
    from: usize,
) -> bool
    requires callable { (i : ℕ) → 4 * i + 4 ≤ length body.now → F.pre passes i }
    requires seen_len { (length seen.old ≡ word_count) × Noted seen.old (terms_of body.now) from }
    ensures { result ≡ true → (i : ℕ) → from ≤ i → i < length (terms_of body.now)
        → New variables (terms_of body.now) i × F.post passes i true }
{
    for i in from..body.len() / 4 {
        if !passes(i) {
            return false;
        }
        if !is_new(variables, seen, body, i) {
            return false;
        }
    }
    true
}

// Whether all terms are plain and have number 0.
pub fn are_bare(variables: usize, seen: &mut [u64; Set::WORDS], body: &[u8]) -> bool
    requires { length seen.old ≡ word_count }
    ensures { result ≡ true → EachFrom Bare variables (terms_of body.now) 0 }
{
    each_from(|i| is_bare(body, i), variables, seen, body, 0)
}

// Whether all terms are plain and have coefficients.
pub fn are_weights(variables: usize, seen: &mut [u64; Set::WORDS], body: &[u8]) -> bool
    requires { length seen.old ≡ word_count }
    ensures { result ≡ true → EachFrom Weight variables (terms_of body.now) 0 }
{
    each_from(|i| is_weight(body, i), variables, seen, body, 0)
}

// Whether the terms are literals from this one on; the set has the variables of those before it.
pub fn are_literals(
    variables: usize,
    seen: &mut [u64; Set::WORDS],
    body: &[u8],
    from: usize,
) -> bool
    requires { (length seen.old ≡ word_count) × Noted seen.old (terms_of body.now) from }
    ensures { result ≡ true → EachFrom Literal variables (terms_of body.now) from }
{
    each_from(|i| is_literal(body, i), variables, seen, body, from)
}
