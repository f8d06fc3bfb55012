// What a rule gives when its body is read in values that stand twice.
ghost use Rattle.std.specs.Prelude.{◌≡◌, Bool, ◌*◌, ◌≤◌, ℤ, pos, nat_abs, ◌+ℤ◌, length};
ghost use Rattle.format.specs.Limits.{max_number};
ghost use Rattle.program.specs.Program.{rule_of, term_form, terms_of};
ghost use Rattle.program.specs.Evaluate.{all_hold, amount_of, amount, evaluate};
ghost use Rattle.program.specs.Evaluable.{Small, EvaluableAs, Evaluable};
ghost use Rattle.parts.specs.Values.{rule_header};
ghost use Rattle.evaluation.specs.Past.{past_only};
ghost use Rattle.sided.specs.Sides.{sided_reading};

use crate::{Sides, all_hold, extreme, product, read_position, sum};
use bodies::numbers;
use evaluation::quotients;
use parts::rules;
use program::Variable;

// The form as which the terms of a form are read.
fn read_as(form: u8) -> u8
    ensures { result ≡ term_form form }
{
    if form == 8 { 1 } else { form }
}

// What a body of a form other than 1 adds to c.
fn added(form: u8, body: &[u8], side: bool, sides: &[i64; Sides::LENGTH]) -> i64
    requires fact { form ≡ 1 → ⊥ }
    requires evaluable_as { EvaluableAs form (pos 0) (pos 1) (terms_of body.now) }
    requires small { Small sides.now }
    ensures result_bound { nat_abs result ≤ max_number * max_number }
    ensures result_value { (c : ℤ) → c +ℤ result ≡ amount_of form c (pos 1) (terms_of body.now)
        (sided_reading sides.now form side (terms_of body.now)) }
{
    if (form == 2) | (form == 3) {
        return extreme(form == 2, body, side, sides);
    }
    match form {
        4 => product(body, side, sides),
        5 => numbers::size(read_position(body, 0, side, sides)),
        7 => read_position(body, 0, side, sides),
        0..=3 | 6 | 8..=255 => 0,
    }
}

// What the rule with this c and body amounts to, where it has no divisor and is read as of this form.
fn amount(form: u8, c: i64, body: &[u8], side: bool, sides: &[i64; Sides::LENGTH]) -> i64
    requires evaluable_as { EvaluableAs form c (pos 1) (terms_of body.now) }
    requires small { Small sides.now }
    ensures { result ≡ amount_of form c (pos 1) (terms_of body.now)
        (sided_reading sides.now form side (terms_of body.now)) }
{
    if form == 1 {
        return sum(c, body, side, sides);
    }
    numbers::plus(c, added(form, body, side, sides))
}

// What the rule in a field's value amounts to, whether or not its literals hold.
fn amount_of(value: &[u8], side: bool, sides: &[i64; Sides::LENGTH]) -> i64
    requires evaluable { Evaluable (rule_of value.now) }
    requires rule_header_in_bounds { rule_header ≤ length value.now }
    requires small { Small sides.now }
    ensures { result ≡ amount (rule_of value.now)
        (sided_reading sides.now (term_form (rule_of value.now).form) side (rule_of value.now).terms) }
{
    let rule = rules::header(value);
    let body = rules::body(value);
    let form = read_as(rule.form);
    let a = amount(form, rule.c, body, side, sides);
    if rule.form == 8 {
        return quotients::over_up(a, rules::divisor(value));
    }
    a
}

// Whether every literal of the rule in a field's value holds; only forms 6 and 7 have literals.
fn is_rule_met(value: &[u8], sides: &[i64; Sides::LENGTH]) -> bool
    requires evaluable { Evaluable (rule_of value.now) }
    requires rule_header_in_bounds { rule_header ≤ length value.now }
    ensures { (side : Bool) → result ≡ all_hold (rule_of value.now).terms
        (sided_reading sides.now (term_form (rule_of value.now).form) side (rule_of value.now).terms)
        (length (rule_of value.now).terms) }
{
    let form = value[0];
    if (form == 6) | (form == 7) {
        return all_hold(rules::body(value), sides);
    }
    true
}

// What the rule in a field's value gives, where that is past z in the order of x; its literals are asked only there.
pub fn gives_past(
    value: &[u8],
    side: bool,
    sides: &[i64; Sides::LENGTH],
    x: Variable,
    z: i64,
) -> Option<i64>
    requires evaluable { Evaluable (rule_of value.now) }
    requires rule_header_in_bounds { rule_header ≤ length value.now }
    requires small { Small sides.now }
    ensures { result ≡ past_only x z (evaluate (rule_of value.now)
        (sided_reading sides.now (term_form (rule_of value.now).form) side (rule_of value.now).terms)) }
{
    let a = amount_of(value, side, sides);
    if !x.is_before(z, a) {
        return None;
    }
    if !is_rule_met(value, sides) {
        return None;
    }
    Some(a)
}
