// A field of tag 5: its tree, and the refusals 18, 5, 9 and 11.
#![tactic(auto)]

ghost use Rattle.std.specs.Prelude.{◌≡◌, ◌||◌, ◌+◌, ◌*◌, ◌≤◌, ltb, length};
ghost use Rattle.format.specs.Limits.{max_file, max_variables, max_rules};
ghost use Rattle.program.specs.Program.{variables_at, rule};
ghost use Rattle.program.specs.Refusals.{undeclared, variable_twice};
ghost use Rattle.nested.specs.Nested.{Rooted, Nested, treed, treed_of};
ghost use Rattle.nested.specs.Flatten.{added_by};
ghost use Rattle.nested.specs.TreeRefusals.{body_of};
ghost use Rattle.treechecks.specs.Checking.{Shapes, Sizes, Checks};

use descent::{Limits, node};
use format::Format;
use meaning::Denied;
use program::Refusal;
use values::is_wrong_head;

// Whether a value is a head and one tree, to the last byte.
fn is_well_formed(value: &[u8]) -> bool
    ensures { Shapes value.now result }
{
    if value.len() == 0 {
        return false;
    }
    let Some(end) = node(value, 1, Limits::LEVELS) else {
        return false;
    };
    end == value.len()
}

// Whether so many added variables, and one rule more, are too many.
fn is_too_many(variables: usize, rules: usize, added: usize) -> bool
    requires { (variables ≤ max_file) × (rules ≤ max_file) × (added ≤ max_file) }
    ensures { result ≡ (ltb max_variables (variables + added) || ltb max_rules (rules + (1 + added))) }
{
    if Format::MAX_VARIABLES < variables + added {
        return true;
    }
    Format::MAX_RULES < rules + (1 + added)
}

// Whether the head is not declared or not founded, or a leaf is not declared.
fn is_undeclared(file: &[u8], n: usize, value: &[u8]) -> bool
    requires n_in_bounds { 8 * n ≤ length file.now }
    requires in_bounds { 1 ≤ length value.now }
    ensures { (t : Rooted) → treed_of value.now ≡ treed t → result ≡ undeclared (variables_at file.now n) (rule (body_of t)) }
{
    if is_wrong_head(file, n, value[0]) {
        return true;
    }
    nodes::is_undeclared(&value[1..], n)
}

// Whether some variable stands at two leaves.
fn is_twice(value: &[u8]) -> bool
    requires { 1 ≤ length value.now }
    ensures { (t : Rooted) → treed_of value.now ≡ treed t → result ≡ variable_twice (rule (body_of t)) }
{
    nodes::is_twice(&value[1..])
}

// How many variables a tree adds.
pub fn added_by(value: &[u8]) -> usize
    requires { 3 ≤ length value.now }
    ensures value { (t : Rooted) → treed_of value.now ≡ treed t → result ≡ added_by t }
    ensures upper_bound { result ≤ length value.now }
{
    nodes::inners(&value[3..])
}

// The first of the refusals 18, 5, 9 and 11 of a field at `at` with this value, after n declared variables and so many variables and rules.
pub fn check_tree(
    file: &[u8],
    n: usize,
    value: &[u8],
    at: usize,
    variables: usize,
    rules: usize,
) -> Result<usize, Denied>
    requires n_in_bounds { (8 * n ≤ length file.now) × (length value.now ≤ max_file) }
    requires variables_le_max_variables { (variables ≤ max_variables) × (rules ≤ max_rules) }
    ensures { (N : Nested) → N.plain.variables ≡ variables_at file.now n → Sizes N variables rules → Checks N value.now at result }
{
    if !is_well_formed(value) {
        return Err(Denied::Tree(at));
    }
    let added = added_by(value);
    if is_too_many(variables, rules, added) {
        return Err(Denied::File(Refusal::OneTooMany, at));
    }
    if is_undeclared(file, n, value) {
        return Err(Denied::File(Refusal::Undeclared, at));
    }
    if is_twice(value) {
        return Err(Denied::File(Refusal::VariableTwice, at));
    }
    Ok(added)
}
