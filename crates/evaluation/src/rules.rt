// What a rule gives when its body is read in two valuations. The functions are inlined, so that the readings are not stored anew at each call.
ghost use Rattle.std.specs.Prelude.{◌≡◌, false, ◌/◌, ◌≤◌, pos, length};
ghost use Rattle.format.specs.Limits.{max_terms};
ghost use Rattle.program.specs.Program.{rule_of, terms_of};
ghost use Rattle.program.specs.Evaluate.{all_hold, amount_of, amount, evaluate};
ghost use Rattle.program.specs.Evaluable.{Small, Plain, has_literals, EvaluableAs, Evaluable};
ghost use Rattle.parts.specs.Values.{rule_header};
ghost use Rattle.bodies.specs.Readings.{reading_of};
ghost use Rattle.evaluation.specs.Past.{past_only};

use crate::quotients;
use bodies::{Readings, numbers};
use format::Format;
use parts::rules;
use parts::rules::RuleHeader;
use program::Variable;

// Whether every literal of a body holds; only forms 6 and 7 have literals.
#[inline(always)]
pub fn is_met(form: u8, body: &[u8], readings: Readings) -> bool
    requires body_len_bound { length body.now / 4 ≤ max_terms }
    requires plain { has_literals form ≡ false → Plain (terms_of body.now) }
    ensures { result ≡ all_hold (terms_of body.now)
        (reading_of readings.entry.kept readings.entry.first.now readings.entry.second.now (terms_of body.now)) (length (terms_of body.now)) }
{
    match form {
        6 => bodies::all_hold(body, readings),
        7 => bodies::all_hold(body, readings),
        0..=5 | 8..=255 => true,
    }
}

// What the rule with this header and body amounts to, where it has no divisor.
#[inline(always)]
pub fn amount(rule: RuleHeader, body: &[u8], readings: Readings) -> i64
    requires evaluable_as { EvaluableAs rule.form rule.c (pos 1) (terms_of body.now) }
    requires small { Small readings.first.now × Small readings.second.now }
    ensures { result ≡ amount_of rule.form rule.c (pos 1) (terms_of body.now)
        (reading_of readings.entry.kept readings.entry.first.now readings.entry.second.now (terms_of body.now)) }
{
    let form = rule.form;
    let c = rule.c;
    match form {
        1 => bodies::sum(c, body, readings),
        2 => numbers::plus(c, bodies::largest(body, readings)),
        3 => numbers::plus(c, bodies::smallest(body, readings)),
        4 => numbers::plus(c, bodies::product(body, readings)),
        5 => {
            let only = readings.read_position(body, 0);
            numbers::plus(c, numbers::size(only))
        }
        6 => c,
        7 => numbers::plus(c, readings.read_position(body, 0)),
        0 | 8..=255 => c,
    }
}

// What a sum over a divisor amounts to.
#[inline(always)]
fn divided(c: i64, divisor: i64, body: &[u8], readings: Readings) -> i64
    requires evaluable_as { EvaluableAs 1 c divisor (terms_of body.now) }
    requires small { Small readings.first.now × Small readings.second.now }
    ensures { result ≡ amount_of 1 c divisor (terms_of body.now)
        (reading_of readings.entry.kept readings.entry.first.now readings.entry.second.now (terms_of body.now)) }
{
    quotients::over_up(bodies::sum(c, body, readings), divisor)
}

// What the rule in a field's value amounts to, whether or not its literals hold.
#[inline(always)]
fn amount_of(value: &[u8], readings: Readings) -> i64
    requires evaluable { Evaluable (rule_of value.now) }
    requires rule_header_in_bounds { rule_header ≤ length value.now }
    requires small { Small readings.first.now × Small readings.second.now }
    ensures { result ≡ amount (rule_of value.now)
        (reading_of readings.entry.kept readings.entry.first.now readings.entry.second.now (rule_of value.now).terms) }
{
    let rule = rules::header(value);
    let body = rules::body(value);
    if rule.form == 8 {
        let divisor = rules::divisor(value);
        return divided(rule.c, divisor, body, readings);
    }
    amount(rule, body, readings)
}

// Whether every literal of the rule in a field's value holds.
#[inline(always)]
fn is_rule_met(value: &[u8], readings: Readings) -> bool
    requires evaluable { Evaluable (rule_of value.now) }
    requires rule_header_in_bounds { rule_header ≤ length value.now }
    ensures { result ≡ all_hold (rule_of value.now).terms
        (reading_of readings.entry.kept readings.entry.first.now readings.entry.second.now (rule_of value.now).terms) (length (rule_of value.now).terms) }
{
    let rule = rules::header(value);
    is_met(rule.form, rules::body(value), readings)
}

// The rule in a field's value.
#[inline(always)]
pub fn gives(value: &[u8], readings: Readings) -> Option<i64>
    requires evaluable { Evaluable (rule_of value.now) }
    requires rule_header_in_bounds { rule_header ≤ length value.now }
    requires small { Small readings.first.now × Small readings.second.now }
    ensures { result ≡ evaluate (rule_of value.now)
        (reading_of readings.entry.kept readings.entry.first.now readings.entry.second.now (rule_of value.now).terms) }
{
    if !is_rule_met(value, readings) {
        return None;
    }
    Some(amount_of(value, readings))
}

// What the rule gives, where that is past z in the order of x; its literals are asked only there.
#[inline(always)]
pub fn gives_past(value: &[u8], readings: Readings, x: Variable, z: i64) -> Option<i64>
    requires evaluable { Evaluable (rule_of value.now) }
    requires rule_header_in_bounds { rule_header ≤ length value.now }
    requires small { Small readings.first.now × Small readings.second.now }
    ensures { result ≡ past_only x z (evaluate (rule_of value.now)
        (reading_of readings.entry.kept readings.entry.first.now readings.entry.second.now (rule_of value.now).terms)) }
{
    let a = amount_of(value, readings);
    if !x.is_before(z, a) {
        return None;
    }
    if !is_rule_met(value, readings) {
        return None;
    }
    Some(a)
}
