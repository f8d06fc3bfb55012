// Whether the plain file of a nested file is valid: the edges of its old rules and of those of its trees.
#![tactic(auto)]

ghost use Rattle.std.specs.Prelude.{◌≡◌, [], ◌∷◌, ℕ, ◌+◌, ◌<◌, ◌≤◌, length, drop};
ghost use Rattle.format.specs.Limits.{max_variables};
ghost use Rattle.program.specs.Program.{rule_of, variables_at};
ghost use Rattle.program.specs.Evaluable.{Small};
ghost use Rattle.reach.specs.Rows.{rows_length, row_has};
ghost use Rattle.nested.specs.NestedReading.{NestedWhole};
ghost use Rattle.flat.specs.Flat.{OneTree, inners_in, flat_rules};
ghost use Rattle.noderules.specs.NodeRules.{rule_at, Writable};
ghost use Rattle.linking.specs.Drawing.{GrownBy, TreesMarked, Recorded, FineRule, FineRules, NodeValue};
ghost use Rattle.edges.specs.Edges.{Grown, draws_at, draws_in};
ghost use Rattle.parts.specs.Values.{Standing};
ghost use Rattle.linking.specs.Judging.{Settled, JudgesNested};

use format::Format;
use idleness::is_idle;
use noderules::{Inner, inner_at, put_node, root};
use parts::places;
use parts::rules::{header, positions, variable_at};
use parts::variables::variable;
use program::Counts;
use reach::{Rows, close, mark};
use treechecks::added_by;
use validity::rules;

// The edge to operand i of the node's rule in a field's value. An operand is kept exactly where it is of the head's kind.
fn mark_operand(
    rows: &mut [u64; Rows::LENGTH],
    records: &[u8],
    variables: usize,
    value: &[u8],
    i: usize,
)
    requires standing { Standing records.now variables value.now × NodeValue (variables_at records.now variables) (rule_of value.now) }
    requires i_in_bounds { (i < length (rule_of value.now).terms) × (length rows.old ≡ rows_length) }
    ensures rows_len { length rows.new ≡ rows_length }
    ensures grown { Grown (row_has rows.old) (row_has rows.new) (draws_at (variables_at records.now variables) (rule_of value.now) i) }
{
    let rule = header(value);
    let x = variable_at(value, i);
    let h = variable(records, rule.head);
    let v = variable(records, x);
    if h.kind != v.kind {
        return;
    }
    let head = format::wide(rule.head);
    let other = format::wide(x);
    mark(rows, head, other);
}

// The edges that the node's rule in a field's value draws, if it is not idle.
fn mark_operands(rows: &mut [u64; Rows::LENGTH], records: &[u8], variables: usize, value: &[u8])
    requires standing { Standing records.now variables value.now × NodeValue (variables_at records.now variables) (rule_of value.now) }
    requires rows_len { length rows.old ≡ rows_length }
    ensures rows_len_2 { length rows.new ≡ rows_length }
    ensures grown { Grown (row_has rows.old) (row_has rows.new) (draws_in (variables_at records.now variables) (rule_of value.now)) }
{
    let n = positions(value);
    for i in 0..n {
        mark_operand(rows, records, variables, value, i);
    }
}

// The edges that a node's rule draws.
fn mark_node(
    rows: &mut [u64; Rows::LENGTH],
    values: &mut [i64; Format::MAX_VARIABLES],
    records: &[u8],
    variables: usize,
    s: &[u8],
    node: Inner,
)
    requires writable { Writable s.now node × FineRule records.now variables (rule_at s.now node) }
    requires recorded { Recorded records.now variables }
    requires rows_len { length rows.old ≡ rows_length }
    requires values_len { (length values.old ≡ max_variables) × Small values.old }
    ensures rows_len_2 { length rows.new ≡ rows_length }
    ensures values_len_2 { (length values.new ≡ max_variables) × Small values.new }
    ensures grown_by { GrownBy rows.old rows.new (variables_at records.now variables) (rule_at s.now node ∷ []) }
{
    let mut rule = [0u8; Inner::FIELD];
    let end = put_node(s, node, &mut rule, 0);
    let value = &rule[3..end];
    if is_idle(values, records, variables, value) {
        return;
    }
    mark_operands(rows, records, variables, value);
}

// The edges that the rules of a tree draw.
fn mark_tree(
    rows: &mut [u64; Rows::LENGTH],
    values: &mut [i64; Format::MAX_VARIABLES],
    records: &[u8],
    variables: usize,
    s: &[u8],
    head: u8,
    next: usize,
)
    requires one_tree { (OneTree s.now × (next + inners_in (drop 2 s.now) ≤ max_variables)) × FineRules records.now variables (flat_rules head next s.now) }
    requires recorded { Recorded records.now variables }
    requires rows_len { length rows.old ≡ rows_length }
    requires values_len { (length values.old ≡ max_variables) × Small values.old }
    ensures rows_len_2 { length rows.new ≡ rows_length }
    ensures values_len_2 { (length values.new ≡ max_variables) × Small values.new }
    ensures grown_by { GrownBy rows.old rows.new (variables_at records.now variables) (flat_rules head next s.now) }
{
    mark_node(rows, values, records, variables, s, root(s, head, next));
    let mut number = next;
    for k in 1..s.len() / 2 {
        let place = 2 * k;
        if s[place] != 0 {
            mark_node(
                rows,
                values,
                records,
                variables,
                s,
                inner_at(s, place, number),
            );
            number += 1;
        }
    }
}

// The edges that the rules of all trees draw, which stand from `from` on.
fn mark_trees(
    rows: &mut [u64; Rows::LENGTH],
    values: &mut [i64; Format::MAX_VARIABLES],
    records: &[u8],
    variables: usize,
    file: &[u8],
    counts: Counts,
    from: usize,
)
    requires settled { Settled file.now counts from variables records.now }
    requires rows_len { length rows.old ≡ rows_length }
    requires values_len { (length values.old ≡ max_variables) × Small values.old }
    ensures rows_len_2 { length rows.new ≡ rows_length }
    ensures values_len_2 { (length values.new ≡ max_variables) × Small values.new }
    ensures trees_marked { TreesMarked file.now counts.variables (variables_at records.now variables) rows.old rows.new }
{
    let mut at = from;
    let mut next = counts.variables;
    while at < file.len() {
        let value = places::value_at(file, at);
        mark_tree(
            rows,
            values,
            records,
            variables,
            &value[1..],
            value[0],
            next,
        );
        next += added_by(value);
        at = places::next_at(file, at);
    }
}

// That the plain file is valid, or the place of the first old rule that offends in it. Added rules have no mixed position.
pub fn judge(
    file: &[u8],
    counts: Counts,
    from: usize,
    variables: usize,
    records: &[u8],
) -> Option<usize>
    requires { Settled file.now counts from variables records.now }
    ensures { (k : ℕ) → NestedWhole file.now k → JudgesNested file.now k result }
{
    let plain = &file[..from];
    if !rules::any_mixed(plain, counts) {
        return None;
    }
    let mut rows = [0u64; Rows::LENGTH];
    let mut values = [0i64; Format::MAX_VARIABLES];
    rules::mark_edges(&mut rows, &mut values, plain, counts);
    mark_trees(
        &mut rows,
        &mut values,
        records,
        variables,
        file,
        counts,
        from,
    );
    close(&mut rows, variables);
    rules::first_offending(&rows, &mut values, plain, counts)
}
