// The mixed positions of one rule, and which of them share its head's component.
ghost use Rattle.std.specs.Prelude.{◌≡◌, ◌<◌, length};
ghost use Rattle.program.specs.Program.{rule_of, variables_at};
ghost use Rattle.program.specs.Directions.{direction, is_mixed};
ghost use Rattle.reach.specs.Rows.{row_has};
ghost use Rattle.reach.specs.Stepping.{Lent};
ghost use Rattle.edges.specs.Edges.{any_mixed, offends_at, offends_in};
ghost use Rattle.parts.specs.Values.{Standing};
ghost use Rattle.positions.specs.Positions.{OpenedIs};

use parts::rules;
use positions::{Opened, open_rule, position_at};
use sharing::share;

// Whether position i of the rule in a field's value is mixed.
fn is_mixed_position(file: &[u8], variables: usize, value: &[u8], rule: Opened, i: usize) -> bool
    requires standing { Standing file.now variables value.now }
    requires opened_is { OpenedIs (variables_at file.now variables) (rule_of value.now) rule }
    requires i_in_bounds { i < length (rule_of value.now).terms }
    ensures { result ≡ is_mixed (direction (variables_at file.now variables) (rule_of value.now) i) }
{
    let p = position_at(file, variables, value, rule, i);
    let d = p.direction;
    d.is_mixed()
}

// Whether some position of the rule is mixed.
pub fn is_mixed(file: &[u8], variables: usize, value: &[u8]) -> bool
    requires { Standing file.now variables value.now }
    ensures { result ≡ any_mixed (variables_at file.now variables) (rule_of value.now) }
{
    let rule = open_rule(file, variables, value);
    for i in 0..rules::positions(value) {
        if is_mixed_position(file, variables, value, rule, i) {
            return true;
        }
    }
    false
}

// Whether position i is mixed and its variable shares the head's component.
fn offends_position(
    rows: &[u64],
    file: &[u8],
    variables: usize,
    value: &[u8],
    rule: Opened,
    i: usize,
) -> bool
    requires lent { Lent rows.now variables }
    requires standing { Standing file.now variables value.now }
    requires opened_is { OpenedIs (variables_at file.now variables) (rule_of value.now) rule }
    requires i_in_bounds { i < length (rule_of value.now).terms }
    ensures { result ≡ offends_at (row_has rows.now) (variables_at file.now variables) (rule_of value.now) i }
{
    let p = position_at(file, variables, value, rule, i);
    let d = p.direction;
    if !d.is_mixed() {
        return false;
    }
    let head = format::wide(rule.head);
    let x = format::wide(p.variable);
    share(rows, head, x)
}

// Whether some position does.
pub fn offends(rows: &[u64], file: &[u8], variables: usize, value: &[u8]) -> bool
    requires lent { Lent rows.now variables }
    requires standing { Standing file.now variables value.now }
    ensures { result ≡ offends_in (row_has rows.now) (variables_at file.now variables) (rule_of value.now) }
{
    let rule = open_rule(file, variables, value);
    for i in 0..rules::positions(value) {
        if offends_position(rows, file, variables, value, rule, i) {
            return true;
        }
    }
    false
}
