// One rule that is not idle: the edges that it draws, from its head to each kept or mixed body variable, and whether it offends.
#![tactic(auto)]

ghost use Rattle.std.specs.Prelude.{◌≡◌, ◌≢◌, ℕ, ◌+◌, ◌*◌, ◌<◌, ◌≤◌, length};
ghost use Rattle.format.specs.Limits.{max_variables};
ghost use Rattle.program.specs.Program.{rule_of, variable_in, variables_at};
ghost use Rattle.parts.specs.Values.{Standing};
ghost use Rattle.reach.specs.Rows.{rows_length, row_has, MarkedWhere};
ghost use Rattle.positions.specs.Positions.{OpenedIs};
ghost use Rattle.edges.specs.Edges.{Grown, draws_by, draws_at, draws_in};

use parts::{rules, terms, variables};
use positions::kinds::Kinds;
use positions::{Opened, kinds, open_rule, position_at};
use program::{Term, Variable};
use reach::{Rows, mark_where};

pub mod mixed;

// The edge that position i of the rule in a field's value draws, if it is kept or mixed.
fn mark_position(
    rows: &mut [u64; Rows::LENGTH],
    file: &[u8],
    variables: usize,
    value: &[u8],
    rule: Opened,
    i: usize,
)
    requires standing { Standing file.now variables value.now }
    requires opened_is { OpenedIs (variables_at file.now variables) (rule_of value.now) rule }
    requires i_in_bounds { (i < length (rule_of value.now).terms) × (length rows.old ≡ rows_length) }
    ensures rows_len { length rows.new ≡ rows_length }
    ensures grown { Grown (row_has rows.old) (row_has rows.new) (draws_at (variables_at file.now variables) (rule_of value.now) i) }
{
    let p = position_at(file, variables, value, rule, i);
    let kept = p.kept;
    let d = p.direction;
    let mixed = d.is_mixed();
    let draws = kept | mixed;
    let head = format::wide(rule.head);
    let x = format::wide(p.variable);
    mark_where(rows, head, x, draws);
}

// The edges that a rule of any form draws.
fn mark_by_direction(
    rows: &mut [u64; Rows::LENGTH],
    file: &[u8],
    variables: usize,
    value: &[u8],
    rule: Opened,
)
    requires standing { Standing file.now variables value.now }
    requires opened_is { OpenedIs (variables_at file.now variables) (rule_of value.now) rule }
    requires rows_len { length rows.old ≡ rows_length }
    ensures rows_len_2 { length rows.new ≡ rows_length }
    ensures grown { Grown (row_has rows.old) (row_has rows.new) (draws_in (variables_at file.now variables) (rule_of value.now)) }
{
    for i in 0..rules::positions(value) {
        mark_position(rows, file, variables, value, rule, i);
    }
}

// Whether a term of a rule of another form than 5 is kept or mixed, x being its variable.
fn draws_by(kinds: Kinds, x: Variable, t: Term) -> bool
    ensures { result ≡ draws_by kinds.up kinds.down x t }
{
    let kind = kinds::kind_of(kinds, t);
    let kept = kinds::keeps(kind, x);
    let mixed = kinds::is_mixed(kind);
    kept | mixed
}

// The edge from the head that such a term draws, if it does.
fn mark_term(rows: &mut [u64; Rows::LENGTH], file: &[u8], kinds: Kinds, head: usize, t: Term)
    requires head_lt_max_variables { (head < max_variables) × (8 * t.variable + 8 ≤ length file.now) }
    requires rows_len { length rows.old ≡ rows_length }
    ensures rows_len_2 { length rows.new ≡ rows_length }
    ensures by_index { (n : ℕ) → t.variable < n → MarkedWhere (draws_by kinds.up kinds.down (variable_in (variables_at file.now n) t.variable) t)
        (row_has rows.old) (row_has rows.new) head t.variable }
{
    let x = variables::variable(file, t.variable);
    let draws = draws_by(kinds, x, t);
    let v = format::wide(t.variable);
    mark_where(rows, head, v, draws);
}

// The edges that a rule of another form than 5 draws, its kinds found once.
fn mark_by_kind(
    rows: &mut [u64; Rows::LENGTH],
    file: &[u8],
    variables: usize,
    value: &[u8],
    rule: Opened,
)
    requires standing { Standing file.now variables value.now }
    requires opened_is { OpenedIs (variables_at file.now variables) (rule_of value.now) rule }
    requires form_nonzero { (rule.form ≢ 5) × (length rows.old ≡ rows_length) }
    ensures rows_len { length rows.new ≡ rows_length }
    ensures grown { Grown (row_has rows.old) (row_has rows.new) (draws_in (variables_at file.now variables) (rule_of value.now)) }
{
    let kinds = kinds::kinds_of(rule.form, rule.variable);
    let head = format::wide(rule.head);
    let body = rules::body(value);
    for i in 0..rules::positions(value) {
        let t = terms::term(body, i);
        mark_term(rows, file, kinds, head, t);
    }
}

// The edges that the rule draws. Of a size this goes by its variable's range, of all else by the kinds.
pub fn mark_rule(rows: &mut [u64; Rows::LENGTH], file: &[u8], variables: usize, value: &[u8])
    requires standing { Standing file.now variables value.now }
    requires rows_len { length rows.old ≡ rows_length }
    ensures rows_len_2 { length rows.new ≡ rows_length }
    ensures grown { Grown (row_has rows.old) (row_has rows.new) (draws_in (variables_at file.now variables) (rule_of value.now)) }
{
    let rule = open_rule(file, variables, value);
    if rule.form == 5 {
        mark_by_direction(rows, file, variables, value, rule);
    } else {
        mark_by_kind(rows, file, variables, value, rule);
    }
}
