// What a rule is estimated to give on the way from present values to aims: a position that is read in `first` has its aim in `aims`, and one that is read in
// `second` stays. The functions are inlined, so that the readings are not stored anew at each call.
#![tactic(auto)]

ghost use Rattle.std.specs.Prelude.{◌≡◌, ◌≤◌, pos, nat_abs, ◌≤ℤ◌, length};
ghost use Rattle.format.specs.Limits.{max_number};
ghost use Rattle.program.specs.Program.{rule_of, terms_of};
ghost use Rattle.program.specs.Evaluable.{Small, EvaluableAs, Evaluable};
ghost use Rattle.parts.specs.Values.{rule_header};
ghost use Rattle.bodies.specs.Readings.{reading_of};
ghost use Rattle.steady.specs.Estimate.{moved_as, estimated_as, estimate};
ghost use Rattle.steady.specs.Strides.{stride_of, stride_at};

use bodies::{Readings, numbers};
use evaluation::quotients;
use evaluation::rules::{amount, is_met};
use format::Format;
use parts::rules;
use parts::rules::RuleHeader;
use program::Variable;

mod rises;
pub mod steps;
pub mod strides;

// The estimate of a sum over a divisor; the head's variable is x, and its stride `own`.
#[inline(always)]
fn summed(
    x: Variable,
    own: i64,
    c: i64,
    divisor: i64,
    body: &[u8],
    readings: Readings,
    aims: &[i64; Format::MAX_VARIABLES],
    strides: &[i64; Format::MAX_VARIABLES],
) -> i64
    requires evaluable_as { EvaluableAs 1 c divisor (terms_of body.now) }
    requires pos_bound { (pos 1 ≤ℤ own) × (nat_abs own ≤ max_number) }
    requires small { Small readings.first.now × Small aims.now × Small readings.second.now }
    ensures { result ≡ estimated_as 1 x (nat_abs own) (stride_at strides.now (terms_of body.now)) c divisor (terms_of body.now)
        (reading_of readings.entry.kept readings.entry.first.now readings.entry.second.now (terms_of body.now))
        (reading_of readings.entry.kept aims.now readings.entry.second.now (terms_of body.now)) }
{
    let sum = bodies::sum(c, body, readings);
    let room = numbers::times(divisor, own);
    let rise = rises::rise(room, body, readings, aims, strides);
    quotients::over_up(steps::further(x, sum, rise), divisor)
}

// A product moved towards the aims.
#[inline(always)]
fn multiplied(
    x: Variable,
    c: i64,
    body: &[u8],
    readings: Readings,
    aims: &[i64; Format::MAX_VARIABLES],
) -> i64
    requires evaluable_as { EvaluableAs 4 c (pos 1) (terms_of body.now) }
    requires small { Small readings.first.now × Small aims.now × Small readings.second.now }
    ensures { result ≡ moved_as 4 x c (pos 1) (terms_of body.now)
        (reading_of readings.entry.kept readings.entry.first.now readings.entry.second.now (terms_of body.now))
        (reading_of readings.entry.kept aims.now readings.entry.second.now (terms_of body.now)) }
{
    let total = numbers::plus(c, bodies::product(body, readings));
    let rise = rises::factor_rise(body, readings, aims);
    steps::further(x, total, rise)
}

// Another form than a sum, moved towards the aims.
#[inline(always)]
fn moved(
    x: Variable,
    rule: RuleHeader,
    body: &[u8],
    readings: Readings,
    aims: &[i64; Format::MAX_VARIABLES],
) -> i64
    requires evaluable_as { EvaluableAs rule.form rule.c (pos 1) (terms_of body.now) }
    requires small { Small readings.first.now × Small aims.now × Small readings.second.now }
    ensures { result ≡ moved_as rule.form x rule.c (pos 1) (terms_of body.now)
        (reading_of readings.entry.kept readings.entry.first.now readings.entry.second.now (terms_of body.now))
        (reading_of readings.entry.kept aims.now readings.entry.second.now (terms_of body.now)) }
{
    if rule.form == 4 {
        return multiplied(x, rule.c, body, readings, aims);
    }
    let moved = Readings {
        first: aims,
        ..readings
    };
    amount(rule, body, moved)
}

// The estimate of the rule with this header and body, where it has no divisor and its literals hold. Where a stride outruns the head's, no position moves.
#[inline(always)]
fn estimated(
    x: Variable,
    own: i64,
    rule: RuleHeader,
    body: &[u8],
    readings: Readings,
    aims: &[i64; Format::MAX_VARIABLES],
    strides: &[i64; Format::MAX_VARIABLES],
) -> i64
    requires evaluable_as { EvaluableAs rule.form rule.c (pos 1) (terms_of body.now) }
    requires pos_bound { (pos 1 ≤ℤ own) × (nat_abs own ≤ max_number) }
    requires small { Small readings.first.now × Small aims.now × Small readings.second.now }
    ensures { result ≡ estimated_as rule.form x (nat_abs own) (stride_at strides.now (terms_of body.now)) rule.c (pos 1)
        (terms_of body.now)
        (reading_of readings.entry.kept readings.entry.first.now readings.entry.second.now (terms_of body.now))
        (reading_of readings.entry.kept aims.now readings.entry.second.now (terms_of body.now)) }
{
    if rule.form == 1 {
        return summed(x, own, rule.c, 1, body, readings, aims, strides);
    }
    if strides::any_outruns(own, body, readings, aims, strides) {
        return moved(x, rule, body, readings, readings.first);
    }
    moved(x, rule, body, readings, aims)
}

// The rule in a field's value; x is the variable of its head, which has this number. The strides are advice, and may be any numbers.
pub fn estimate(
    value: &[u8],
    x: Variable,
    head: u8,
    readings: Readings,
    aims: &[i64; Format::MAX_VARIABLES],
    strides: &[i64; Format::MAX_VARIABLES],
) -> Option<i64>
    requires evaluable { Evaluable (rule_of value.now) }
    requires rule_header_in_bounds { rule_header ≤ length value.now }
    requires small { Small readings.first.now × Small aims.now × Small readings.second.now }
    ensures { result ≡ estimate x (stride_of strides.now head) (stride_at strides.now (rule_of value.now).terms) (rule_of value.now)
        (reading_of readings.entry.kept readings.entry.first.now readings.entry.second.now (rule_of value.now).terms)
        (reading_of readings.entry.kept aims.now readings.entry.second.now (rule_of value.now).terms) }
{
    let rule = rules::header(value);
    let body = rules::body(value);
    let own = strides::stride_of(strides, head);
    if rule.form == 8 {
        let divisor = rules::divisor(value);
        return Some(summed(x, own, rule.c, divisor, body, readings, aims, strides));
    }
    if !is_met(rule.form, body, readings) {
        return None;
    }
    Some(estimated(x, own, rule, body, readings, aims, strides))
}
