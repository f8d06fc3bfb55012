// Rules that can still lift their heads: those that give more than their heads have when every founded variable is at its far end. And rules that hold their heads up:
// those that give no less than their heads have.
ghost use Rattle.std.specs.Prelude.{◌≡◌, ◌*◌, ◌≤◌, ◌<◌, length};
ghost use Rattle.format.specs.Limits.{max_variables, max_rules};
ghost use Rattle.program.specs.Evaluable.{Small};
ghost use Rattle.tables.specs.Tabled.{row_words};
ghost use Rattle.run.specs.Running.{SomeRule};
ghost use Rattle.sequence.specs.Standing.{RulesStand};

use crate::numbers::{copy, put};
use format::Format;
use parts::variables;
use program::Variable;
use run::Source;
use run::demands::{demand, head_at};
use sequence::walk::node;
use tables::{Tables, mask_in, place_in};

// Variable v is put at its far end, if it is founded.
fn top_one(file: &[u8], variables: usize, v: u8, tops: &mut [i64; Format::MAX_VARIABLES])
    requires { (8 * variables ≤ length file.now) × (length tops.old ≡ max_variables) × Small tops.old }
    ensures { (length tops.new ≡ max_variables) × Small tops.new }
{
    let i = format::wide(v);
    if i >= variables {
        return;
    }
    let x = variables::variable(file, v);
    if !x.is_founded() {
        return;
    }
    put(tops, i, x.far());
}

// The founded variables at their far ends, all others as they are; or all as they are.
fn top_all(
    file: &[u8],
    variables: usize,
    holding: bool,
    model: &[i64; Format::MAX_VARIABLES],
    tops: &mut [i64; Format::MAX_VARIABLES],
)
    requires { (8 * variables ≤ length file.now) × (length tops.old ≡ max_variables) × Small tops.old }
    ensures { (length tops.new ≡ max_variables) × Small tops.new }
{
    copy(tops, model, variables);
    if holding {
        return;
    }
    for v in 0..variables {
        top_one(file, variables, node(v), tops);
    }
}

// Whether what is given is more than the value of the head x, or no less.
fn is_more(x: Variable, holding: bool, given: Option<i64>, value: i64) -> bool {
    let Some(a) = given else {
        return false;
    };
    if holding {
        return !x.is_before(a, value);
    }
    x.is_before(value, a)
}

// Whether the rule whose field stands at `at` gives more at these values than its head has, or no less.
fn is_live(
    file: &[u8],
    at: usize,
    mask: u32,
    holding: bool,
    tops: &[i64; Format::MAX_VARIABLES],
    model: &[i64; Format::MAX_VARIABLES],
    others: &[i64; Format::MAX_VARIABLES],
) -> bool
    requires some_rule { SomeRule file.now at }
    requires small { Small tops.now × Small others.now }
{
    let given = demand(file, at, mask, tops, others);
    let head = head_at(file, at);
    let x = variables::variable(file, head);
    let v = format::wide(head);
    let value = model[v];
    is_more(x, holding, given, value)
}

// Rule i is in the set, or it is not.
fn enter(live: &mut [u64; Tables::ROW], i: usize, kept: bool)
    requires { (length live.old ≡ row_words) × (i < max_rules) }
    ensures { length live.new ≡ row_words }
{
    if kept {
        words::add_bit(live, i);
    } else {
        words::drop_bit(live, i);
    }
}

// The set of the rules that can still lift their heads, or of those that hold them up.
pub fn keep_live(
    source: &Source,
    holding: bool,
    model: &[i64; Format::MAX_VARIABLES],
    live: &mut [u64; Tables::ROW],
)
    requires variables_in_bounds { (8 * source.now.counts.variables ≤ length source.now.file.now) × (source.now.counts.rules ≤ max_rules) × RulesStand source.now.file.now source.now.offsets.now source.now.counts.rules }
    requires small { Small source.now.others.now × (length live.old ≡ row_words) }
    ensures { length live.new ≡ row_words }
{
    let mut tops = [0i64; Format::MAX_VARIABLES];
    top_all(
        source.file,
        source.counts.variables,
        holding,
        model,
        &mut tops,
    );
    for i in 0..source.counts.rules {
        let kept = is_live(
            source.file,
            place_in(source.offsets, i),
            mask_in(source.masks, i),
            holding,
            &tops,
            model,
            source.others,
        );
        enter(live, i, kept);
    }
}
