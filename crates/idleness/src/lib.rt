// Whether a rule is idle: it gives nothing, or no more than its head's starting end, whatever values its variables have in their ranges.
#![tactic(auto)]

ghost use Rattle.std.specs.Prelude.{◌≡◌, ◌≢◌, ℕ, ◌<◌, ◌≤◌, nat_abs, length, set};
ghost use Rattle.format.specs.Limits.{max_variables, max_number};
ghost use Rattle.program.specs.Program.{rule_of, variables_at};
ghost use Rattle.program.specs.Variables.{start, no_more};
ghost use Rattle.program.specs.Readings.{valued, body_variable};
ghost use Rattle.program.specs.Evaluable.{Small};
ghost use Rattle.program.specs.Idle.{furthest, nearest, demanding, is_idle};
ghost use Rattle.positions.specs.Positions.{OpenedIs};
ghost use Rattle.positions.specs.Kinds.{direction_of, kind_in};
ghost use Rattle.idleness.specs.Most.{Ready, most_declared};

use bodies::{Readings, numbers};
use evaluation::rules::gives;
use format::Format;
use parts::{rules, terms, variables};
use positions::kinds::Kinds;
use positions::{Opened, directions, kinds, open_rule, position_at};
use program::{Direction, Term, Variable};

// Of the values from low to high one that is furthest from 0.
fn furthest(low: i64, high: i64) -> i64
    requires { (nat_abs low ≤ max_number) × (nat_abs high ≤ max_number) }
    ensures { result ≡ furthest low high }
{
    let below = numbers::size(low);
    let above = numbers::size(high);
    if below < above { high } else { low }
}

// Of the values from low to high the one that is nearest to 0.
fn nearest(low: i64, high: i64) -> i64
    ensures { result ≡ nearest low high }
{
    if 0 < low {
        return low;
    }
    if high < 0 { high } else { 0 }
}

// The value from low to high at which a position that pushes this way makes a rule with the head h demand most.
fn demanding(h: Variable, d: Direction, low: i64, high: i64) -> i64
    requires { (nat_abs low ≤ max_number) × (nat_abs high ≤ max_number) }
    ensures { result ≡ demanding h d low high }
{
    if d.is_mixed() {
        if h.is_from_above() {
            return nearest(low, high);
        }
        return furthest(low, high);
    }
    if d.is_rising() { high } else { low }
}

// That value, by the kind that is kept at the position.
fn demanding_by(h: Variable, kind: u32, low: i64, high: i64) -> i64
    requires { (nat_abs low ≤ max_number) × (nat_abs high ≤ max_number) }
    ensures { result ≡ demanding h (direction_of kind) low high }
{
    if kinds::is_mixed(kind) {
        return demanding(h, Direction::Mixed, low, high);
    }
    if kind == 1 { high } else { low }
}

// Sets the variable at position i of the rule in a field's value to the value of its range at which the rule
// demands most.
fn set_position(
    values: &mut [i64; Format::MAX_VARIABLES],
    file: &[u8],
    variables: usize,
    value: &[u8],
    rule: Opened,
    i: usize,
)
    requires ready { Ready file.now variables value.now }
    requires opened_is { OpenedIs (variables_at file.now variables) (rule_of value.now) rule }
    requires i_in_bounds { (i < length (rule_of value.now).terms) × (length values.old ≡ max_variables) }
    ensures { values.new ≡ set values.old (body_variable (rule_of value.now) i)
        (most_declared (variables_at file.now variables) (rule_of value.now) i) }
{
    let t = terms::term(rules::body(value), i);
    let x = variables::variable(file, t.variable);
    let d = directions::of_term(rule.variable, rule.form, x, t);
    let most = demanding(rule.variable, d, x.low, x.high);
    let v = format::wide(t.variable);
    values[v] = most;
}

// Sets every variable of the body so, in a rule of any form.
fn set_by_direction(
    values: &mut [i64; Format::MAX_VARIABLES],
    file: &[u8],
    variables: usize,
    value: &[u8],
    rule: Opened,
)
    requires ready { Ready file.now variables value.now }
    requires opened_is { OpenedIs (variables_at file.now variables) (rule_of value.now) rule }
    requires values_len { (length values.old ≡ max_variables) × Small values.old }
    ensures values_len_2 { (length values.new ≡ max_variables) × Small values.new }
    ensures by_index { (i : ℕ) → i < length (rule_of value.now).terms
        → valued values.new (body_variable (rule_of value.now) i)
        ≡ most_declared (variables_at file.now variables) (rule_of value.now) i }
{
    for i in 0..rules::positions(value) {
        set_position(values, file, variables, value, rule, i);
    }
}

// Sets x, the variable of a term of a rule with the head h, so. The rule is of another form than 5.
fn set_term(
    values: &mut [i64; Format::MAX_VARIABLES],
    h: Variable,
    kinds: Kinds,
    x: Variable,
    t: Term,
)
    requires { (nat_abs x.low ≤ max_number) × (nat_abs x.high ≤ max_number) × (length values.old ≡ max_variables) }
    ensures { values.new ≡ set values.old t.variable (demanding h (direction_of (kind_in kinds.up kinds.down t)) x.low x.high) }
{
    let kind = kinds::kind_of(kinds, t);
    let most = demanding_by(h, kind, x.low, x.high);
    let v = format::wide(t.variable);
    values[v] = most;
}

// Sets every variable of the body so, in a rule of another form than 5, its kinds found once.
fn set_by_kind(
    values: &mut [i64; Format::MAX_VARIABLES],
    file: &[u8],
    variables: usize,
    value: &[u8],
    rule: Opened,
)
    requires ready { Ready file.now variables value.now }
    requires opened_is { OpenedIs (variables_at file.now variables) (rule_of value.now) rule }
    requires form_nonzero { (rule.form ≢ 5) × (length values.old ≡ max_variables) × Small values.old }
    ensures values_len { (length values.new ≡ max_variables) × Small values.new }
    ensures by_index { (i : ℕ) → i < length (rule_of value.now).terms
        → valued values.new (body_variable (rule_of value.now) i)
        ≡ most_declared (variables_at file.now variables) (rule_of value.now) i }
{
    let kinds = kinds::kinds_of(rule.form, rule.variable);
    let body = rules::body(value);
    for i in 0..rules::positions(value) {
        let t = terms::term(body, i);
        let x = variables::variable(file, t.variable);
        set_term(values, rule.variable, kinds, x, t);
    }
}

// Sets every variable of the body so.
fn set_most(
    values: &mut [i64; Format::MAX_VARIABLES],
    file: &[u8],
    variables: usize,
    value: &[u8],
    rule: Opened,
)
    requires ready { Ready file.now variables value.now }
    requires opened_is { OpenedIs (variables_at file.now variables) (rule_of value.now) rule }
    requires values_len { (length values.old ≡ max_variables) × Small values.old }
    ensures values_len_2 { (length values.new ≡ max_variables) × Small values.new }
    ensures by_index { (i : ℕ) → i < length (rule_of value.now).terms
        → valued values.new (body_variable (rule_of value.now) i)
        ≡ most_declared (variables_at file.now variables) (rule_of value.now) i }
{
    if rule.form == 5 {
        set_by_direction(values, file, variables, value, rule);
    } else {
        set_by_kind(values, file, variables, value, rule);
    }
}

// Whether what is given is nothing or no more than the starting end of x.
fn is_no_more(x: Variable, given: Option<i64>) -> bool
    ensures { result ≡ no_more x given (start x) }
{
    let Some(a) = given else {
        return true;
    };
    !x.is_before(x.start(), a)
}

// Whether the size in a field's value is idle.
pub fn is_idle_size(file: &[u8], variables: usize, value: &[u8]) -> bool
    requires ready { Ready file.now variables value.now }
    requires value_value { (rule_of value.now).form ≡ 5 }
    ensures { result ≡ is_idle (variables_at file.now variables) (rule_of value.now) }
{
    let rule = open_rule(file, variables, value);
    let header = rules::header(value);
    let p = position_at(file, variables, value, rule, 0);
    let d = p.direction;
    let x = variables::variable(file, p.variable);
    let most = demanding(rule.variable, d, x.low, x.high);
    let given = Some(numbers::plus(header.c, numbers::size(most)));
    is_no_more(rule.variable, given)
}

// Whether the rule in a field's value is idle. The values are lent for it, and are left as numbers of the format's range.
pub fn is_idle(
    values: &mut [i64; Format::MAX_VARIABLES],
    file: &[u8],
    variables: usize,
    value: &[u8],
) -> bool
    requires ready { Ready file.now variables value.now }
    requires values_len { (length values.old ≡ max_variables) × Small values.old }
    ensures values_len_2 { (length values.new ≡ max_variables) × Small values.new }
    ensures value { result ≡ is_idle (variables_at file.now variables) (rule_of value.now) }
{
    let rule = open_rule(file, variables, value);
    set_most(values, file, variables, value, rule);
    let readings = Readings {
        kept: 0,
        first: values,
        second: values,
    };
    let most = gives(value, readings);
    is_no_more(rule.variable, most)
}
