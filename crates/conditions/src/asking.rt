// What the positions of one rule ask of the assignment.
ghost use Rattle.std.specs.Prelude.{◌≡◌, ◌<◌, length};
ghost use Rattle.words.specs.Bit.{has};
ghost use Rattle.program.specs.Program.{rule_of, variables_at};
ghost use Rattle.parts.specs.Values.{Standing};
ghost use Rattle.positions.specs.Positions.{OpenedIs};
ghost use Rattle.report.specs.Report.{asks_most, asks_least, asked_at, asked_by};
ghost use Rattle.conditions.specs.Asking.{AsksMore};

use crate::members::with_if;
use parts::rules;
use positions::{Opened, open_rule, position_at};
use program::Direction;
use sets::Set;

// The variables with a condition 'at most', and those with one 'at least'.
#[derive(Clone, Copy)]
pub struct Asked {
    pub most: Set,
    pub least: Set,
}

// Whether a position asks 'at most' and 'at least'; `except` where it is kept and its variable in the set.
fn asks_most(d: Direction, except: bool) -> bool
    ensures { result ≡ asks_most d except }
{
    match d {
        Direction::Rising => !except,
        Direction::Falling => false,
        Direction::Mixed => true,
    }
}

fn asks_least(d: Direction, except: bool) -> bool
    ensures { result ≡ asks_least d except }
{
    match d {
        Direction::Rising => false,
        Direction::Falling => !except,
        Direction::Mixed => true,
    }
}

// What position j of the rule in a field's value asks, besides what was asked before.
fn ask_position(
    before: Asked,
    file: &[u8],
    variables: usize,
    value: &[u8],
    rule: Opened,
    set: Set,
    j: usize,
) -> Asked
    requires standing { Standing file.now variables value.now }
    requires opened_is { OpenedIs (variables_at file.now variables) (rule_of value.now) rule }
    requires j_in_bounds { j < length (rule_of value.now).terms }
    ensures { AsksMore before result (λ asks. asked_at (variables_at file.now variables) (has set.words) asks (rule_of value.now) j) }
{
    let p = position_at(file, variables, value, rule, j);
    let kept = p.kept;
    let d = p.direction;
    let x = p.variable;
    let inside = set.contains(x);
    let except = kept & inside;
    let most = before.most;
    let least = before.least;
    Asked {
        most: with_if(most, x, asks_most(d, except)),
        least: with_if(least, x, asks_least(d, except)),
    }
}

// What the rule asks.
pub fn ask_rule(before: Asked, file: &[u8], variables: usize, value: &[u8], set: Set) -> Asked
    requires { Standing file.now variables value.now }
    ensures { AsksMore before result (λ asks. asked_by (variables_at file.now variables) (has set.words) asks (rule_of value.now)) }
{
    let rule = open_rule(file, variables, value);
    let n = rules::positions(value);
    let mut all = before;
    for j in 0..n {
        let next = ask_position(all, file, variables, value, rule, set, j);
        all = next;
    }
    all
}
