// Whether nothing is wrong with a body, at one quick look. Where it says no, what is wrong is still to be found.
#![tactic(auto)]

ghost use Rattle.std.specs.Prelude.{◌≡◌, true, ◌*◌, ◌<◌, ◌≤◌, length};
ghost use Rattle.words.specs.Bit.{word_count};
ghost use Rattle.program.specs.Program.{terms_of, variables_at};
ghost use Rattle.faultless.specs.Faultless.{FaultlessOf, Faultless, LowFrom0};

use format::Format;
use sets::Set;

pub mod terms;

// A sum.
fn is_sum(variables: usize, seen: &mut [u64; Set::WORDS], body: &[u8]) -> bool
    requires { length seen.old ≡ word_count }
    ensures { result ≡ true → FaultlessOf variables 1 (terms_of body.now) }
{
    if Format::MAX_TERMS < body.len() / 4 {
        return false;
    }
    terms::are_weights(variables, seen, body)
}

// The largest or the smallest.
fn is_extreme(variables: usize, seen: &mut [u64; Set::WORDS], body: &[u8]) -> bool
    requires { length seen.old ≡ word_count }
    ensures { result ≡ true → FaultlessOf variables 2 (terms_of body.now) × FaultlessOf variables 3 (terms_of body.now) }
{
    let n = body.len() / 4;
    match n {
        1..=Format::MAX_TERMS => terms::are_bare(variables, seen, body),
        _ => false,
    }
}

// Whether the low of a declared variable is not below 0.
fn is_low_fine(file: &[u8], variables: usize, x: u8) -> bool
    requires { (8 * variables ≤ length file.now) × (x < variables) }
    ensures { result ≡ true → LowFrom0 (variables_at file.now variables) x }
{
    let v = parts::variables::variable(file, x);
    0 <= v.low
}

// A product.
fn is_product(file: &[u8], variables: usize, seen: &mut [u64; Set::WORDS], body: &[u8]) -> bool
    requires { (length seen.old ≡ word_count) × (8 * variables ≤ length file.now) }
    ensures { result ≡ true → Faultless (variables_at file.now variables) 4 (terms_of body.now) }
{
    if body.len() / 4 != 2 {
        return false;
    }
    if !terms::are_bare(variables, seen, body) {
        return false;
    }
    if !is_low_fine(file, variables, body[0]) {
        return false;
    }
    is_low_fine(file, variables, body[4])
}

// A size.
fn is_size(variables: usize, seen: &mut [u64; Set::WORDS], body: &[u8]) -> bool
    requires { length seen.old ≡ word_count }
    ensures { result ≡ true → FaultlessOf variables 5 (terms_of body.now) }
{
    if body.len() / 4 != 1 {
        return false;
    }
    terms::are_bare(variables, seen, body)
}

// Literals alone.
fn is_if(variables: usize, seen: &mut [u64; Set::WORDS], body: &[u8]) -> bool
    requires { length seen.old ≡ word_count }
    ensures { result ≡ true → FaultlessOf variables 6 (terms_of body.now) }
{
    let n = body.len() / 4;
    match n {
        1..=Format::MAX_TERMS => terms::are_literals(variables, seen, body, 0),
        _ => false,
    }
}

// A plain term and literals.
fn is_carry(variables: usize, seen: &mut [u64; Set::WORDS], body: &[u8]) -> bool
    requires { length seen.old ≡ word_count }
    ensures { result ≡ true → FaultlessOf variables 7 (terms_of body.now) }
{
    let n = body.len() / 4;
    match n {
        2..=Format::MAX_TERMS => {}
        _ => {
            return false;
        }
    }
    if !terms::is_bare(body, 0) {
        return false;
    }
    if !terms::is_new(variables, seen, body, 0) {
        return false;
    }
    terms::are_literals(variables, seen, body, 1)
}

// A body that is read as one of this form.
pub fn is_faultless(file: &[u8], variables: usize, body: &[u8], form: u8) -> bool
    requires { 8 * variables ≤ length file.now }
    ensures { result ≡ true → Faultless (variables_at file.now variables) form (terms_of body.now) }
{
    let mut seen = [0u64; Set::WORDS];
    match form {
        1 => is_sum(variables, &mut seen, body),
        2 => is_extreme(variables, &mut seen, body),
        3 => is_extreme(variables, &mut seen, body),
        4 => is_product(file, variables, &mut seen, body),
        5 => is_size(variables, &mut seen, body),
        6 => is_if(variables, &mut seen, body),
        7 => is_carry(variables, &mut seen, body),
        0 | 8..=255 => false,
    }
}
