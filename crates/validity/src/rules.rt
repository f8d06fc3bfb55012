// The rules of a file, one after the other.
ghost use Rattle.std.specs.Prelude.{◌≡◌, ◌||◌, ℕ, length};
ghost use Rattle.format.specs.Limits.{max_variables};
ghost use Rattle.program.specs.Program.{rule_of, variables_at};
ghost use Rattle.program.specs.Evaluable.{Small};
ghost use Rattle.words.specs.Bit.{has};
ghost use Rattle.reach.specs.Rows.{rows_length, row_has};
ghost use Rattle.reach.specs.Stepping.{Lent};
ghost use Rattle.fields.specs.Scanning.{Counted};
ghost use Rattle.parts.specs.Values.{Standing};
ghost use Rattle.edges.specs.Edges.{Grown, any_mixed};
ghost use Rattle.idleness.specs.Most.{Ready};
ghost use Rattle.validity.specs.Marks.{draws_by, offends_by, acts_mixed, acts_on, OnlySizes, mixed_rule, acting_variable, edge_in, JudgedBy};

use edges::mixed;
use format::Format;
use idleness::{is_idle, is_idle_size};
use parts::places;
use parts::rules::variable_at;
use program::Counts;
use reach::Rows;
use sets::Set;

// Whether the rule in a field's value has a mixed position. Only sizes have one.
fn is_mixed(file: &[u8], variables: usize, value: &[u8]) -> bool
    requires standing { Standing file.now variables value.now }
    requires only_sizes { OnlySizes (variables_at file.now variables) (rule_of value.now) }
    ensures { result ≡ any_mixed (variables_at file.now variables) (rule_of value.now) }
{
    if value[0] != 5 {
        return false;
    }
    mixed::is_mixed(file, variables, value)
}

// Whether some rule has a mixed position.
pub fn any_mixed(file: &[u8], counts: Counts) -> bool
    requires { Counted file.now counts }
    ensures { result ≡ mixed_rule file.now counts }
{
    let n = counts.variables;
    let rules = counts.rules;
    let mut at = 8 * n;
    for i in 0..rules {
        let value = places::value_at(file, at);
        if is_mixed(file, n, value) {
            return true;
        }
        at = places::next_at(file, at);
    }
    false
}

// Whether the rule in a field's value has a mixed position and is not idle.
fn acts_mixed(file: &[u8], variables: usize, value: &[u8]) -> bool
    requires ready { Ready file.now variables value.now }
    requires only_sizes { OnlySizes (variables_at file.now variables) (rule_of value.now) }
    ensures { result ≡ acts_mixed (variables_at file.now variables) (rule_of value.now) }
{
    if value[0] != 5 {
        return false;
    }
    if !mixed::is_mixed(file, variables, value) {
        return false;
    }
    let idle = is_idle_size(file, variables, value);
    !idle
}

// The set takes in the variable of the mixed position of the rule in a field's value, if the rule has one and is not idle: the only position of a size.
fn take_acting(found: Set, file: &[u8], variables: usize, value: &[u8]) -> Set
    requires ready { Ready file.now variables value.now }
    requires only_sizes { OnlySizes (variables_at file.now variables) (rule_of value.now) }
    ensures { (v : ℕ) → has result.words v ≡ (has found.words v || acts_on (variables_at file.now variables) (rule_of value.now) v) }
{
    if !acts_mixed(file, variables, value) {
        return found;
    }
    found.insert(variable_at(value, 0))
}

// The variables of the mixed positions of rules that are not idle.
pub fn acting_variables(file: &[u8], counts: Counts) -> Set
    requires { Counted file.now counts }
    ensures { (v : ℕ) → has result.words v ≡ acting_variable file.now counts v }
{
    let n = counts.variables;
    let rules = counts.rules;
    let mut at = 8 * n;
    let mut found = Set::empty();
    for i in 0..rules {
        let value = places::value_at(file, at);
        found = take_acting(found, file, n, value);
        at = places::next_at(file, at);
    }
    found
}

// The edges that the rule in a field's value draws; the values are lent to find whether it is idle.
fn mark_rule(
    rows: &mut [u64; Rows::LENGTH],
    values: &mut [i64; Format::MAX_VARIABLES],
    file: &[u8],
    variables: usize,
    value: &[u8],
)
    requires ready { Ready file.now variables value.now }
    requires rows_len { length rows.old ≡ rows_length }
    requires values_len { (length values.old ≡ max_variables) × Small values.old }
    ensures rows_len_2 { length rows.new ≡ rows_length }
    ensures values_len_2 { (length values.new ≡ max_variables) × Small values.new }
    ensures grown { Grown (row_has rows.old) (row_has rows.new) (draws_by (variables_at file.now variables) (rule_of value.now)) }
{
    if is_idle(values, file, variables, value) {
        return;
    }
    edges::mark_rule(rows, file, variables, value);
}

// The edges that the rules draw.
pub fn mark_edges(
    rows: &mut [u64; Rows::LENGTH],
    values: &mut [i64; Format::MAX_VARIABLES],
    file: &[u8],
    counts: Counts,
)
    requires counted { Counted file.now counts }
    requires rows_len { length rows.old ≡ rows_length }
    requires values_len { (length values.old ≡ max_variables) × Small values.old }
    ensures rows_len_2 { length rows.new ≡ rows_length }
    ensures values_len_2 { (length values.new ≡ max_variables) × Small values.new }
    ensures grown { Grown (row_has rows.old) (row_has rows.new) (edge_in file.now counts) }
{
    let n = counts.variables;
    let rules = counts.rules;
    let mut at = 8 * n;
    for i in 0..rules {
        let value = places::value_at(file, at);
        mark_rule(rows, values, file, n, value);
        at = places::next_at(file, at);
    }
}

// Whether the rule in a field's value offends by the rows. Only sizes have mixed positions. One that shares its component with none is not asked whether it is idle.
fn offends(
    rows: &[u64],
    values: &mut [i64; Format::MAX_VARIABLES],
    file: &[u8],
    variables: usize,
    value: &[u8],
) -> bool
    requires lent { Lent rows.now variables }
    requires ready { Ready file.now variables value.now }
    requires only_sizes { OnlySizes (variables_at file.now variables) (rule_of value.now) }
    requires values_len { (length values.old ≡ max_variables) × Small values.old }
    ensures values_len_2 { (length values.new ≡ max_variables) × Small values.new }
    ensures value { result ≡ offends_by (row_has rows.now) (variables_at file.now variables) (rule_of value.now) }
{
    if value[0] != 5 {
        return false;
    }
    if !mixed::offends(rows, file, variables, value) {
        return false;
    }
    !is_idle(values, file, variables, value)
}

// The first rule that offends by the rows.
pub fn first_offending(
    rows: &[u64],
    values: &mut [i64; Format::MAX_VARIABLES],
    file: &[u8],
    counts: Counts,
) -> Option<usize>
    requires counted { Counted file.now counts }
    requires lent { Lent rows.now counts.variables }
    requires values_len { (length values.old ≡ max_variables) × Small values.old }
    ensures { JudgedBy (row_has rows.now) file.now counts result }
{
    let n = counts.variables;
    let rules = counts.rules;
    let mut at = 8 * n;
    for rule in 0..rules {
        let value = places::value_at(file, at);
        if offends(rows, values, file, n, value) {
            return Some(at);
        }
        at = places::next_at(file, at);
    }
    None
}
