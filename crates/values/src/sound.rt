// Values with which nothing is wrong, at one quick look. Where it says no, what is wrong is still to be found.
ghost use Rattle.std.specs.Prelude.{◌≡◌, true, ◌*◌, ◌≤◌, length};
ghost use Rattle.program.specs.Program.{Item, rule_of, constraint_of, variables_at};
ghost use Rattle.program.specs.Refusals.{item_refusal};
ghost use Rattle.parts.specs.Values.{rule_header, constraint_header};

use crate::{body_form, is_wrong_constraint, is_wrong_head};
use faultless::is_faultless;
use faults::divisors;
use parts::{constraints, rules};

// A rule of another form than 8.
pub fn is_sound_rule(file: &[u8], variables: usize, value: &[u8]) -> bool
    requires variables_in_bounds { (8 * variables ≤ length file.now) × (rule_header ≤ length value.now) }
    requires fact { (rule_of value.now).form ≡ 8 → ⊥ }
    ensures { result ≡ true → 0 ≡ item_refusal (variables_at file.now variables) (Item.rule (rule_of value.now)) }
{
    let rule = rules::header(value);
    let body = rules::body(value);
    if format::is_number_beyond(rule.c) {
        return false;
    }
    if is_wrong_head(file, variables, rule.head) {
        return false;
    }
    is_faultless(file, variables, body, rule.form)
}

// A rule of form 8.
pub fn is_sound_divided(file: &[u8], variables: usize, value: &[u8]) -> bool
    requires variables_in_bounds { (8 * variables ≤ length file.now) × (rule_header ≤ length value.now) }
    requires value_value { (rule_of value.now).form ≡ 8 }
    ensures { result ≡ true → 0 ≡ item_refusal (variables_at file.now variables) (Item.rule (rule_of value.now)) }
{
    let rule = rules::header(value);
    let part = rules::divisor_part(value);
    let body = rules::body(value);
    if part.len() / 4 != 1 {
        return false;
    }
    let divisor = divisors::divisor_faults(part);
    if divisor.form | divisor.range {
        return false;
    }
    if format::is_number_beyond(rule.c) {
        return false;
    }
    if is_wrong_head(file, variables, rule.head) {
        return false;
    }
    is_faultless(file, variables, body, 1)
}

pub fn is_sound_constraint(file: &[u8], variables: usize, value: &[u8]) -> bool
    requires { (8 * variables ≤ length file.now) × (constraint_header ≤ length value.now) }
    ensures { result ≡ true → 0 ≡ item_refusal (variables_at file.now variables) (Item.constraint (constraint_of value.now)) }
{
    let constraint = constraints::header(value);
    let body = constraints::body(value);
    if format::is_number_beyond(constraint.c) {
        return false;
    }
    if is_wrong_constraint(constraint.form, constraint.c) {
        return false;
    }
    is_faultless(file, variables, body, body_form(constraint.form))
}
