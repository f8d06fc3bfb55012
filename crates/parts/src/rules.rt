// The rule in a field's value: form (1), head (1), c (2), of form 8 its divisor (4), then its body.
ghost use Rattle.std.specs.Prelude.{◌≡◌, ◌≤◌, ◌<◌, length};
ghost use Rattle.program.specs.Program.{divisor_of, rule_divisor, rule_body, rule_of};
ghost use Rattle.program.specs.Readings.{body_variable};
ghost use Rattle.parts.specs.Values.{rule_header, HeaderIs, Handed};

use crate::terms;

// What stands before the body and the divisor.
#[derive(Drop)]
pub struct RuleHeader {
    pub form: u8,
    pub head: u8,
    pub c: i64,
}

pub fn header(value: &[u8]) -> RuleHeader
    requires { rule_header ≤ length value.now }
    ensures { HeaderIs value.now result }
{
    let c = format::signed_at(value, 2);
    RuleHeader {
        form: value[0],
        head: value[1],
        c,
    }
}

// The divisor's term of a rule of form 8, as that stretch of the value; shorter where the value ends before.
pub fn divisor_part(value: &[u8]) -> &[u8]
    requires { (rule_header ≤ length value.now) × ((rule_of value.now).form ≡ 8) }
    ensures { Handed (rule_divisor value.now) result.now }
{
    if value.len() < 8 {
        return &value[4..];
    }
    &value[4..8]
}

// The divisor of a rule of form 8, 1 where it is missing.
pub fn divisor(value: &[u8]) -> i64
    requires { (rule_header ≤ length value.now) × ((rule_of value.now).form ≡ 8) }
    ensures { result ≡ divisor_of (rule_of value.now) }
{
    let part = divisor_part(value);
    if part.len() < 4 {
        return 1;
    }
    let t = terms::term(part, 0);
    t.number
}

// The body of a rule of form 8, which follows its divisor; empty where the value ends before.
fn divided_body(value: &[u8]) -> &[u8]
    requires { (rule_header ≤ length value.now) × ((rule_of value.now).form ≡ 8) }
    ensures { Handed (rule_body value.now) result.now }
{
    let len = value.len();
    if len < 8 {
        return &value[len..];
    }
    &value[8..]
}

// The body, as that stretch of the value.
pub fn body(value: &[u8]) -> &[u8]
    requires { rule_header ≤ length value.now }
    ensures { Handed (rule_body value.now) result.now }
{
    if value[0] == 8 {
        return divided_body(value);
    }
    &value[4..]
}

// How many positions the body has.
pub fn positions(value: &[u8]) -> usize
    requires { rule_header ≤ length value.now }
    ensures { result ≡ length (rule_of value.now).terms }
{
    body(value).len() / 4
}

// The variable at position i of the body.
pub fn variable_at(value: &[u8], i: usize) -> u8
    requires { (rule_header ≤ length value.now) × (i < length (rule_of value.now).terms) }
    ensures { result ≡ body_variable (rule_of value.now) i }
{
    let t = terms::term(body(value), i);
    t.variable
}
