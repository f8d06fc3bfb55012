// Rules lift the aims of their heads towards the targets.
ghost use Rattle.std.specs.Prelude.{◌≡◌, ℕ, ◌≤◌, length};
ghost use Rattle.format.specs.Limits.{max_variables};
ghost use Rattle.program.specs.Program.{Program};
ghost use Rattle.program.specs.Reading.{AcceptedAs};
ghost use Rattle.program.specs.Evaluable.{Small};
ghost use Rattle.run.specs.Running.{RuleStands, SomeRule};
ghost use Rattle.targets.specs.Aims.{lift_to, next_aim, SomeAimsBy, AimsKeptBy};

use crate::aims::{is_open, later};
use bodies::Readings;
use format::Format;
use parts::places::value_at;
use parts::variables;
use program::Variable;
use run::{Source, demands};
use tables::{mask_in, place_in};

// The aim of x lifted to what is given, but no further than the target; or the aim, where what is given does not come after it.
fn lift_to(x: Variable, aim: i64, target: i64, given: Option<i64>) -> i64
    ensures { result ≡ lift_to x aim target given }
{
    let Some(b) = given else {
        return aim;
    };
    if !x.is_before(b, target) {
        return target;
    }
    later(x, aim, b)
}

// The aim of the head of the rule whose field stands at `at`, after the rule has lifted it.
fn next_aim(
    source: &Source,
    at: usize,
    mask: u32,
    model: &[i64; Format::MAX_VARIABLES],
    target: &[i64; Format::MAX_VARIABLES],
    strides: &[i64; Format::MAX_VARIABLES],
    aims: &[i64; Format::MAX_VARIABLES],
) -> i64
    requires some_rule { SomeRule source.now.file.now at }
    requires small { Small model.now × Small aims.now × Small source.now.others.now }
    ensures { (P : Program) (i : ℕ) → RuleStands source.now.file.now P i at
        → result ≡ next_aim P mask source.now.cut strides.now source.now.stops.now source.now.others.now model.now target.now aims.now i }
{
    let head = demands::head_at(source.file, at);
    let x = variables::variable(source.file, head);
    let v = format::wide(head);
    let aim = aims[v];
    let stop = source.stops[v];
    let goal = target[v];
    if !is_open(x, source.cut, stop, aim, goal) {
        return aim;
    }
    let readings = Readings {
        kept: mask,
        first: model,
        second: source.others,
    };
    let given = steady::estimate(value_at(source.file, at), x, head, readings, aims, strides);
    lift_to(
        x,
        aim,
        goal,
        demands::stop_at(source.cut, x, stop, mask, given),
    )
}

// Rule i, if it is one, lifts the aim of its head, or changes nothing; whether it did.
fn lift(
    source: &Source,
    i: usize,
    model: &[i64; Format::MAX_VARIABLES],
    target: &[i64; Format::MAX_VARIABLES],
    strides: &[i64; Format::MAX_VARIABLES],
    aims: &mut [i64; Format::MAX_VARIABLES],
) -> bool
    requires accepted_as { AcceptedAs source.now.file.now source.now.counts }
    requires some_aims { SomeAimsBy source.now strides.now model.now aims.old }
    requires aims_len { length aims.old ≡ max_variables }
    ensures aims_len_2 { length aims.new ≡ max_variables }
    ensures aims_kept { AimsKeptBy source.now strides.now model.now aims.old aims.new }
{
    if i >= source.counts.rules {
        return false;
    }
    let at = place_in(source.offsets, i);
    let mask = mask_in(source.masks, i);
    let next = next_aim(source, at, mask, model, target, strides, aims);
    let head = demands::head_at(source.file, at);
    let v = format::wide(head);
    let aim = aims[v];
    if next == aim {
        return false;
    }
    aims[v] = next;
    true
}

// Each of the first `count` rules of the line once; whether an aim was lifted.
fn pass(
    source: &Source,
    line: &[usize; Format::MAX_VARIABLES],
    count: usize,
    model: &[i64; Format::MAX_VARIABLES],
    target: &[i64; Format::MAX_VARIABLES],
    strides: &[i64; Format::MAX_VARIABLES],
    aims: &mut [i64; Format::MAX_VARIABLES],
) -> bool
    requires accepted_as { AcceptedAs source.now.file.now source.now.counts }
    requires some_aims { SomeAimsBy source.now strides.now model.now aims.old }
    requires aims_len { (length aims.old ≡ max_variables) × (count ≤ max_variables) }
    ensures aims_len_2 { length aims.new ≡ max_variables }
    ensures aims_kept { AimsKeptBy source.now strides.now model.now aims.old aims.new }
{
    let mut some = false;
    for k in 0..count {
        let i = line[k];
        let lifted = lift(source, i, model, target, strides, aims);
        some = some | lifted;
    }
    some
}

// The passes over a line in which aims are lifted: as many as it has rules, or these if that is more, since a lift may be a part of the way.
#[derive(Drop)]
pub struct Lifts {}

impl Lifts {
    pub const LEAST: usize = 40;
}

fn passes(count: usize) -> usize {
    if count < Lifts::LEAST {
        Lifts::LEAST
    } else {
        count
    }
}

// Passes over the line until one lifts no aim.
pub fn lift_all(
    source: &Source,
    line: &[usize; Format::MAX_VARIABLES],
    count: usize,
    model: &[i64; Format::MAX_VARIABLES],
    target: &[i64; Format::MAX_VARIABLES],
    strides: &[i64; Format::MAX_VARIABLES],
    aims: &mut [i64; Format::MAX_VARIABLES],
)
    requires accepted_as { AcceptedAs source.now.file.now source.now.counts }
    requires some_aims { SomeAimsBy source.now strides.now model.now aims.old }
    requires aims_len { (length aims.old ≡ max_variables) × (count ≤ max_variables) }
    ensures aims_len_2 { length aims.new ≡ max_variables }
    ensures aims_kept { AimsKeptBy source.now strides.now model.now aims.old aims.new }
{
    for _ in 0..passes(count) {
        if !pass(source, line, count, model, target, strides, aims) {
            return;
        }
    }
}
