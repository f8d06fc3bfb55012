// The positions of a rule's body: the variable there, and which way it pushes.
#![tactic(auto)]

ghost use Rattle.std.specs.Prelude.{◌<◌, length};
ghost use Rattle.program.specs.Program.{rule_of, variables_at};
ghost use Rattle.parts.specs.Values.{Standing};
ghost use Rattle.positions.specs.Positions.{OpenedIs, PositionIs};

use parts::{rules, terms, variables};
use program::{Direction, Variable};

pub mod directions;
pub mod kinds;

// What the positions of a rule have in common: its form, its head and the variable of its head.
#[derive(Clone, Copy)]
pub struct Opened {
    pub form: u8,
    pub head: u8,
    pub variable: Variable,
}

// The variable at a position, which way it pushes there, and whether the reduct keeps it.
#[derive(Drop)]
pub struct Position {
    pub variable: u8,
    pub direction: Direction,
    pub kept: bool,
}

// The rule in a field's value, opened for its positions.
pub fn open_rule(file: &[u8], variables: usize, value: &[u8]) -> Opened
    requires { Standing file.now variables value.now }
    ensures { OpenedIs (variables_at file.now variables) (rule_of value.now) result }
{
    let rule = rules::header(value);
    let variable = variables::variable(file, rule.head);
    Opened {
        form: rule.form,
        head: rule.head,
        variable,
    }
}

// Position i of the rule.
pub fn position_at(file: &[u8], variables: usize, value: &[u8], rule: Opened, i: usize) -> Position
    requires standing { Standing file.now variables value.now }
    requires opened_is { OpenedIs (variables_at file.now variables) (rule_of value.now) rule }
    requires i_in_bounds { i < length (rule_of value.now).terms }
    ensures { PositionIs (variables_at file.now variables) (rule_of value.now) i result }
{
    let t = terms::term(rules::body(value), i);
    let x = variables::variable(file, t.variable);
    let direction = directions::of_term(rule.variable, rule.form, x, t);
    Position {
        variable: t.variable,
        direction,
        kept: directions::is_kept(x, direction),
    }
}
