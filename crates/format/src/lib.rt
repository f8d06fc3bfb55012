// The limits of the rule file's format, and its numbers of two bytes.
#![tactic(auto)]

ghost use Rattle.std.specs.Prelude.{◌≡◌, ◌+◌, ◌*◌, ◌/◌, ◌%◌, ◌<◌, length, pos, nat_abs};
ghost use Rattle.std.specs.Int.{w16};
ghost use Rattle.std.proofs.Common.{of_z};
ghost use Rattle.format.specs.Limits.{max_file, max_variables, max_rules, max_constraints, max_terms, max_number, max_coefficient, max_divisor};
ghost use Rattle.format.specs.Numbers.{big, signed, unsigned_at, signed_at, beyond};

#[derive(Drop)]
pub struct Format {}

impl Format {
    // The tags.
    pub const VARIABLE: u8 = 1;

    pub const RULE: u8 = 2;

    pub const CONSTRAINT: u8 = 3;

    // The limits.
    pub const MAX_FILE: usize = 60000;

    pub const MAX_VARIABLES: usize = 256;

    pub const MAX_RULES: usize = 2048;

    pub const MAX_CONSTRAINTS: usize = 512;

    pub const MAX_TERMS: usize = 16;

    pub const MAX_NUMBER: i64 = 30000;

    pub const MAX_COEFFICIENT: i64 = 1000;

    pub const MAX_DIVISOR: i64 = 1000;

    // The limits of the code are those of the specification.
    pub fn quoted()
        ensures max_file { Format.MAX_FILE ≡ max_file }
        ensures max_variables { Format.MAX_VARIABLES ≡ max_variables }
        ensures max_rules { Format.MAX_RULES ≡ max_rules }
        ensures max_constraints { Format.MAX_CONSTRAINTS ≡ max_constraints }
        ensures max_terms { Format.MAX_TERMS ≡ max_terms }
        ensures max_number { Format.MAX_NUMBER ≡ pos max_number }
        ensures max_coefficient { Format.MAX_COEFFICIENT ≡ pos max_coefficient }
        ensures max_divisor { Format.MAX_DIVISOR ≡ pos max_divisor }
    {}
}

// A byte as a number of the machine's width.
pub fn wide(x: u8) -> usize
    ensures { (result ≡ x) × (result < 256) }
{
    x as usize
}

// The number of two bytes, the high one first.
pub fn joined(high: u8, low: u8) -> usize
    ensures { (result ≡ big high low) × (result < 65536) }
{
    high as usize * 256 + low as usize
}

// The value of two bytes in two's complement.
pub fn number(high: u8, low: u8) -> i64
    ensures { result ≡ signed high low }
{
    let top = (high as u64 + 128) % 256;
    (top as i64 - 128) * 256 + low as i64
}

// The unsigned number of the two bytes at i.
pub fn unsigned_at(s: &[u8], i: usize) -> usize
    requires { i + 1 < length s.now }
    ensures { (result ≡ unsigned_at s.now i) × (result < 65536) }
{
    joined(s[i], s[i + 1])
}

// The two's complement number of the two bytes at i.
pub fn signed_at(s: &[u8], i: usize) -> i64
    requires { i + 1 < length s.now }
    ensures { result ≡ signed_at s.now i }
{
    number(s[i], s[i + 1])
}

// The number in two's complement, of which the two bytes are made.
fn raw(v: i64) -> u64
    requires { nat_abs v < 32768 }
    ensures { (result ≡ of_z w16 v) × (result < 65536) }
{
    if v < 0 { (v + 65536) as u64 } else { v as u64 }
}

// The high byte of a number in two's complement.
pub fn high_byte(v: i64) -> u8
    requires { nat_abs v < 32768 }
    ensures { result ≡ of_z w16 v / 256 }
{
    (raw(v) / 256 % 256) as u8
}

// The low byte of a number in two's complement.
pub fn low_byte(v: i64) -> u8
    requires { nat_abs v < 32768 }
    ensures { result ≡ of_z w16 v % 256 }
{
    (raw(v) % 256) as u8
}

// Whether a number lies outside -30,000..30,000.
pub fn is_number_beyond(v: i64) -> bool
    ensures { result ≡ beyond max_number v }
{
    if v < -Format::MAX_NUMBER {
        return true;
    }
    Format::MAX_NUMBER < v
}

// Whether a number lies outside -1,000..1,000.
pub fn is_coefficient_beyond(v: i64) -> bool
    ensures { result ≡ beyond max_coefficient v }
{
    if v < -Format::MAX_COEFFICIENT {
        return true;
    }
    Format::MAX_COEFFICIENT < v
}
