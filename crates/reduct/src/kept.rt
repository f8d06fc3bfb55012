// The positions of a rule that the reduct keeps, as the bits of a word.
ghost use Rattle.std.specs.Prelude.{◌≡◌, cond, ◌+◌, ◌*◌, ◌^◌, ◌<◌, ◌≤◌, length};
ghost use Rattle.format.specs.Limits.{max_terms};
ghost use Rattle.program.specs.Program.{rule_of, variables_at};
ghost use Rattle.program.specs.Readings.{kept};
ghost use Rattle.parts.specs.Values.{Standing};
ghost use Rattle.positions.specs.Positions.{OpenedIs};
ghost use Rattle.positions.specs.Kinds.{KindsOf};
ghost use Rattle.reduct.specs.Masks.{Mask};

use parts::{rules, terms, variables};
use positions::kinds::Kinds;
use positions::{Opened, kinds, open_rule, position_at};

// The bits of a word moved up by one, with a new lowest bit.
pub fn moved_up(bits: u32, lowest: bool) -> u32
    requires { bits < 2 ^ max_terms }
    ensures { result ≡ cond lowest 1 0 + 2 * bits }
{
    if lowest { 1 + 2 * bits } else { 2 * bits }
}

// Whether position i of the rule in a field's value, of another form than 5, is kept.
fn is_position_kept(file: &[u8], variables: usize, value: &[u8], kinds: Kinds, i: usize) -> bool
    requires standing { Standing file.now variables value.now }
    requires kinds_of { KindsOf (variables_at file.now variables) (rule_of value.now) kinds }
    requires i_in_bounds { i < length (rule_of value.now).terms }
    ensures { result ≡ kept (variables_at file.now variables) (rule_of value.now) i }
{
    let t = terms::term(rules::body(value), i);
    let x = variables::variable(file, t.variable);
    kinds::is_kept(kinds, x, t)
}

// The bits of a rule of another form than 5.
fn kept_by_kind(file: &[u8], variables: usize, value: &[u8], kinds: Kinds) -> u32
    requires standing { Standing file.now variables value.now }
    requires kinds_of { KindsOf (variables_at file.now variables) (rule_of value.now) kinds }
    requires value_len_bound { length (rule_of value.now).terms ≤ max_terms }
    ensures { Mask (kept (variables_at file.now variables) (rule_of value.now)) (length (rule_of value.now).terms) result }
{
    let n = rules::positions(value);
    let mut bits: u32 = 0;
    for i in (0..n).rev() {
        let one = is_position_kept(file, variables, value, kinds, i);
        bits = moved_up(bits, one);
    }
    bits
}

// The bits of a rule of any form.
fn kept_by_direction(file: &[u8], variables: usize, value: &[u8], rule: Opened) -> u32
    requires standing { Standing file.now variables value.now }
    requires opened_is { OpenedIs (variables_at file.now variables) (rule_of value.now) rule }
    requires value_len_bound { length (rule_of value.now).terms ≤ max_terms }
    ensures { Mask (kept (variables_at file.now variables) (rule_of value.now)) (length (rule_of value.now).terms) result }
{
    let n = rules::positions(value);
    let mut bits: u32 = 0;
    for i in (0..n).rev() {
        let p = position_at(file, variables, value, rule, i);
        bits = moved_up(bits, p.kept);
    }
    bits
}

// Bit i is set where position i of the rule in a field's value is kept. Of a size this goes by its variable's range, of all else by the variable's kind.
pub fn kept_positions(file: &[u8], variables: usize, value: &[u8]) -> u32
    requires standing { Standing file.now variables value.now }
    requires value_len_bound { length (rule_of value.now).terms ≤ max_terms }
    ensures { Mask (kept (variables_at file.now variables) (rule_of value.now)) (length (rule_of value.now).terms) result }
{
    let rule = open_rule(file, variables, value);
    if rule.form == 5 {
        return kept_by_direction(file, variables, value, rule);
    }
    let kinds = kinds::kinds_of(rule.form, rule.variable);
    kept_by_kind(file, variables, value, kinds)
}
