// The values of fields: variables, rules and constraints.
#![tactic(auto)]

ghost use Rattle.std.specs.Prelude.{◌≡◌, List, ◌*◌, ◌<◌, ◌≤◌, length};
ghost use Rattle.std.specs.Int.Signed.{lt_z};
ghost use Rattle.format.specs.Limits.{max_terms};
ghost use Rattle.program.specs.Program.{Item, rule_of, constraint_of, variables_at};
ghost use Rattle.program.specs.Refusals.{outside_range, not_terms, unknown_form, wrong_head, wrong_count_of, wrong_constraint, body_form, not_from, item_refusal};
ghost use Rattle.faults.specs.Faults.{checked_number};
ghost use Rattle.parts.specs.Values.{rule_header, constraint_header};
ghost use Rattle.values.specs.Lengths.{length_refusal};
ghost use Rattle.program.specs.declared.Variable.{Variable};

use faults::{Faults, by_form, divisors};
use format::Format;
use parts::{constraints, rules, variables};
use program::{Refusal, Variable};

pub mod sound;

pub fn is_below(a: i64, b: i64) -> bool
    ensures { result ≡ lt_z a b }
{
    a < b
}

// Whether an end of a variable's range is outside its own, or low is above high.
pub fn is_range_outside(x: Variable) -> bool
    ensures { result ≡ outside_range (Item.variable x) }
{
    let low = x.low;
    let high = x.high;
    let a = format::is_number_beyond(low);
    let b = format::is_number_beyond(high);
    a | b | is_below(high, low)
}

// A variable.
pub fn check_variable(value: &[u8]) -> Result<(), Refusal>
    ensures { (vs : List Variable) → checked_number result ≡ length_refusal vs 1 value.now }
{
    if value.len() != 5 {
        return Err(Refusal::WrongLength);
    }
    let x = variables::variable_of(value);
    let kind = x.kind;
    match kind {
        0..=2 => {}
        3..=255 => {
            return Err(Refusal::WrongForm);
        }
    }
    if is_range_outside(x) {
        return Err(Refusal::OutsideRange);
    }
    Ok(())
}

// Whether a length is not that of a header and of so many terms at most.
pub fn is_not_terms(len: usize, header: usize, most: usize) -> bool
    ensures { result ≡ not_terms header most len }
{
    if len < header {
        return true;
    }
    let rest = len - header;
    if rest % 4 != 0 {
        return true;
    }
    most < rest / 4
}

pub fn is_unknown_form(form: u8) -> bool
    ensures { result ≡ unknown_form form }
{
    match form {
        1..=8 => false,
        0 | 9..=255 => true,
    }
}

// Whether a head is not declared or not founded.
pub fn is_wrong_head(file: &[u8], variables: usize, head: u8) -> bool
    requires { 8 * variables ≤ length file.now }
    ensures { result ≡ wrong_head (variables_at file.now variables) head }
{
    if faults::is_undeclared(variables, head) {
        return true;
    }
    let x = variables::variable(file, head);
    !x.is_founded()
}

// Whether a body has fewer terms than `least`, or more than a body may have.
fn is_not_from(least: usize, n: usize) -> bool
    ensures { result ≡ not_from least max_terms n }
{
    !(least..=Format::MAX_TERMS).contains(&n)
}

// Whether a body of this form may not have n terms.
pub fn is_wrong_count(form: u8, n: usize) -> bool
    ensures { result ≡ wrong_count_of form n }
{
    match form {
        1 => is_not_from(0, n),
        2 => is_not_from(1, n),
        3 => is_not_from(1, n),
        4 => n != 2,
        5 => n != 1,
        6 => is_not_from(1, n),
        7 => is_not_from(2, n),
        0 | 8..=255 => false,
    }
}

// A rule of a right length and of another form than 8.
pub fn check_rule_parts(file: &[u8], variables: usize, value: &[u8]) -> Result<(), Refusal>
    requires variables_in_bounds { (8 * variables ≤ length file.now) × (rule_header ≤ length value.now) }
    requires fact { (rule_of value.now).form ≡ 8 → ⊥ }
    ensures { checked_number result ≡ item_refusal (variables_at file.now variables) (Item.rule (rule_of value.now)) }
{
    let rule = rules::header(value);
    let body = rules::body(value);
    let form = rule.form;
    let own = Faults {
        form: is_unknown_form(form),
        range: format::is_number_beyond(rule.c),
        variable: is_wrong_head(file, variables, rule.head),
        repeated: false,
        negative: false,
    };
    let all = own.with(faults::body_faults(file, variables, body, form));
    all.first(is_wrong_count(form, body.len() / 4))
}

// A rule of a right length and of form 8.
pub fn check_divided_parts(file: &[u8], variables: usize, value: &[u8]) -> Result<(), Refusal>
    requires variables_in_bounds { (8 * variables ≤ length file.now) × (rule_header ≤ length value.now) }
    requires value_value { (rule_of value.now).form ≡ 8 }
    ensures { checked_number result ≡ item_refusal (variables_at file.now variables) (Item.rule (rule_of value.now)) }
{
    let rule = rules::header(value);
    let part = rules::divisor_part(value);
    let body = rules::body(value);
    let divisor = divisors::divisor_faults(part);
    let own = Faults {
        form: divisor.form,
        range: format::is_number_beyond(rule.c) | divisor.range,
        variable: is_wrong_head(file, variables, rule.head),
        repeated: false,
        negative: false,
    };
    let all = own.with(faults::body_faults(file, variables, body, 1));
    let missing = part.len() / 4 != 1;
    all.first(missing | is_wrong_count(1, body.len() / 4))
}

// A rule of form 8.
fn check_divided(file: &[u8], variables: usize, value: &[u8]) -> Result<(), Refusal>
    requires variables_in_bounds { (8 * variables ≤ length file.now) × (rule_header ≤ length value.now) }
    requires value_value { (rule_of value.now).form ≡ 8 }
    ensures { checked_number result ≡ length_refusal (variables_at file.now variables) 2 value.now }
{
    if is_not_terms(value.len(), 4, 1 + Format::MAX_TERMS) {
        return Err(Refusal::WrongLength);
    }
    if sound::is_sound_divided(file, variables, value) {
        return Ok(());
    }
    check_divided_parts(file, variables, value)
}

pub fn check_rule(file: &[u8], variables: usize, value: &[u8]) -> Result<(), Refusal>
    requires { 8 * variables ≤ length file.now }
    ensures { checked_number result ≡ length_refusal (variables_at file.now variables) 2 value.now }
{
    if value.len() < 4 {
        return Err(Refusal::WrongLength);
    }
    if value[0] == 8 {
        return check_divided(file, variables, value);
    }
    if is_not_terms(value.len(), 4, Format::MAX_TERMS) {
        return Err(Refusal::WrongLength);
    }
    if sound::is_sound_rule(file, variables, value) {
        return Ok(());
    }
    check_rule_parts(file, variables, value)
}

// The rule form whose terms a constraint's form has.
pub fn body_form(form: u8) -> u8
    ensures { result ≡ body_form form }
{
    match form {
        1 => 1,
        2 => 6,
        0 | 3..=255 => 0,
    }
}

// Whether a constraint's form is unknown, or its c must be 0 and is not.
pub fn is_wrong_constraint(form: u8, c: i64) -> bool
    ensures { result ≡ wrong_constraint form c }
{
    match form {
        1 => false,
        2 => !by_form::is_zero(c),
        0 | 3..=255 => true,
    }
}

// A constraint of a right length.
pub fn check_constraint_parts(file: &[u8], variables: usize, value: &[u8]) -> Result<(), Refusal>
    requires { (8 * variables ≤ length file.now) × (constraint_header ≤ length value.now) }
    ensures { checked_number result ≡ item_refusal (variables_at file.now variables) (Item.constraint (constraint_of value.now)) }
{
    let constraint = constraints::header(value);
    let body = constraints::body(value);
    let form = body_form(constraint.form);
    let own = Faults {
        form: is_wrong_constraint(constraint.form, constraint.c),
        range: format::is_number_beyond(constraint.c),
        variable: false,
        repeated: false,
        negative: false,
    };
    let all = own.with(faults::body_faults(file, variables, body, form));
    all.first(is_wrong_count(form, body.len() / 4))
}

pub fn check_constraint(file: &[u8], variables: usize, value: &[u8]) -> Result<(), Refusal>
    requires { 8 * variables ≤ length file.now }
    ensures { checked_number result ≡ length_refusal (variables_at file.now variables) 3 value.now }
{
    if is_not_terms(value.len(), 3, Format::MAX_TERMS) {
        return Err(Refusal::WrongLength);
    }
    if sound::is_sound_constraint(file, variables, value) {
        return Ok(());
    }
    check_constraint_parts(file, variables, value)
}
