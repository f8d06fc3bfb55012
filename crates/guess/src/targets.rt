// The targets: far ends at first, then lowered to what the rules of the line are estimated to give on the way there, or drawn in towards the values.
ghost use Rattle.std.specs.Prelude.{◌≡◌, ◌*◌, ◌≤◌, ◌<◌, length};
ghost use Rattle.format.specs.Limits.{max_variables, max_rules};
ghost use Rattle.program.specs.Evaluable.{Small};
ghost use Rattle.run.specs.Running.{SomeRule};
ghost use Rattle.sequence.specs.Standing.{RulesStand};

use crate::numbers::{copy, near, put, times};
use bodies::Readings;
use format::Format;
use parts::places::value_at;
use parts::variables;
use program::Variable;
use run::Source;
use run::demands::{head_at, stop_at};
use steady::steps::{distance, further};
use tables::{mask_in, place_in};

// The furthest that a value can be raised: its far end, or where lifts stop.
fn furthest(x: Variable, cut: bool, stop: i64) -> i64 {
    if cut { stop } else { x.far() }
}

// The target of one head is the furthest.
fn open_one(source: &Source, head: u8, target: &mut [i64; Format::MAX_VARIABLES])
    requires { (8 * source.now.counts.variables ≤ length source.now.file.now) × (length target.old ≡ max_variables) × Small target.old }
    ensures { (length target.new ≡ max_variables) × Small target.new }
{
    let v = format::wide(head);
    let stop = source.stops[v];
    if v < source.counts.variables {
        let x = variables::variable(source.file, head);
        put(target, v, furthest(x, source.cut, stop));
    }
}

// The targets of these heads are the furthest, all others the values.
pub fn open(
    source: &Source,
    heads: &[u8; Format::MAX_VARIABLES],
    count: usize,
    model: &[i64; Format::MAX_VARIABLES],
    target: &mut [i64; Format::MAX_VARIABLES],
)
    requires { (8 * source.now.counts.variables ≤ length source.now.file.now) × (length target.old ≡ max_variables) × Small target.old }
    ensures { (length target.new ≡ max_variables) × Small target.new }
{
    copy(target, model, source.counts.variables);
    for &head in heads.iter().take(count) {
        open_one(source, head, target);
    }
}

// What is given, no earlier in the order of x than the value.
fn at_least(x: Variable, given: Option<i64>, value: i64) -> i64 {
    let Some(b) = given else {
        return value;
    };
    if x.is_before(b, value) { value } else { b }
}

// The target of the head of the rule whose field stands at `at` is lowered to what the rule is estimated to give; whether it was further.
fn lower_at(
    source: &Source,
    at: usize,
    mask: u32,
    model: &[i64; Format::MAX_VARIABLES],
    strides: &[i64; Format::MAX_VARIABLES],
    target: &mut [i64; Format::MAX_VARIABLES],
) -> bool
    requires some_rule { SomeRule source.now.file.now at }
    requires small { Small model.now × Small source.now.others.now }
    requires target_len { (length target.old ≡ max_variables) × Small target.old }
    ensures { (length target.new ≡ max_variables) × Small target.new }
{
    let head = head_at(source.file, at);
    let x = variables::variable(source.file, head);
    let v = format::wide(head);
    let value = model[v];
    let stop = source.stops[v];
    let goal = target[v];
    let readings = Readings {
        kept: mask,
        first: model,
        second: source.others,
    };
    let given = steady::estimate(
        value_at(source.file, at),
        x,
        head,
        readings,
        target,
        strides,
    );
    let most = at_least(x, stop_at(source.cut, x, stop, mask, given), value);
    if !x.is_before(most, goal) {
        return false;
    }
    put(target, v, most);
    true
}

// That of the head of rule i, if it is one.
fn lower_rule(
    source: &Source,
    i: usize,
    model: &[i64; Format::MAX_VARIABLES],
    strides: &[i64; Format::MAX_VARIABLES],
    target: &mut [i64; Format::MAX_VARIABLES],
) -> bool
    requires rules_le_max_rules { (source.now.counts.rules ≤ max_rules) × RulesStand source.now.file.now source.now.offsets.now source.now.counts.rules }
    requires small { Small model.now × Small source.now.others.now }
    requires target_len { (length target.old ≡ max_variables) × Small target.old }
    ensures { (length target.new ≡ max_variables) × Small target.new }
{
    if i >= source.counts.rules {
        return false;
    }
    lower_at(
        source,
        place_in(source.offsets, i),
        mask_in(source.masks, i),
        model,
        strides,
        target,
    )
}

// Each of the first `count` rules of the line once; whether a target was lowered.
fn lower_once(
    source: &Source,
    line: &[usize; Format::MAX_VARIABLES],
    count: usize,
    model: &[i64; Format::MAX_VARIABLES],
    strides: &[i64; Format::MAX_VARIABLES],
    target: &mut [i64; Format::MAX_VARIABLES],
) -> bool
    requires rules_le_max_rules { (source.now.counts.rules ≤ max_rules) × RulesStand source.now.file.now source.now.offsets.now source.now.counts.rules × (count ≤ max_variables) }
    requires small { Small model.now × Small source.now.others.now }
    requires target_len { (length target.old ≡ max_variables) × Small target.old }
    ensures { (length target.new ≡ max_variables) × Small target.new }
{
    let mut some = false;
    for &i in &line[..count] {
        let lowered = lower_rule(source, i, model, strides, target);
        some = some | lowered;
    }
    some
}

// The passes over a line in which targets are lowered.
#[derive(Drop)]
pub struct Passes {}

impl Passes {
    pub const MOST: usize = 4;
}

// Passes over the line until one lowers no target, which it answers; or as many as are made at most.
pub fn lower(
    source: &Source,
    line: &[usize; Format::MAX_VARIABLES],
    count: usize,
    model: &[i64; Format::MAX_VARIABLES],
    strides: &[i64; Format::MAX_VARIABLES],
    target: &mut [i64; Format::MAX_VARIABLES],
) -> bool
    requires rules_le_max_rules { (source.now.counts.rules ≤ max_rules) × RulesStand source.now.file.now source.now.offsets.now source.now.counts.rules × (count ≤ max_variables) }
    requires small { Small model.now × Small source.now.others.now }
    requires target_len { (length target.old ≡ max_variables) × Small target.old }
    ensures { (length target.new ≡ max_variables) × Small target.new }
{
    for pass in 0..Passes::MOST {
        if !lower_once(source, line, count, model, strides, target) {
            return true;
        }
    }
    false
}

// The steps of one head to its target.
fn rise_of(
    model: &[i64; Format::MAX_VARIABLES],
    target: &[i64; Format::MAX_VARIABLES],
    head: u8,
) -> i64
    requires { Small model.now × Small target.now }
{
    let v = format::wide(head);
    distance(model[v], target[v])
}

// The most steps of these heads to their targets.
pub fn highest(
    heads: &[u8; Format::MAX_VARIABLES],
    count: usize,
    model: &[i64; Format::MAX_VARIABLES],
    target: &[i64; Format::MAX_VARIABLES],
) -> i64
    requires { Small model.now × Small target.now }
{
    let mut most = 0i64;
    for &head in heads.iter().take(count) {
        let rise = rise_of(model, target, head);
        if most < rise {
            most = rise;
        }
    }
    most
}

// The target of one head is at most so many strides from its value.
fn draw_one(
    file: &[u8],
    variables: usize,
    head: u8,
    steps: i64,
    strides: &[i64; Format::MAX_VARIABLES],
    model: &[i64; Format::MAX_VARIABLES],
    target: &mut [i64; Format::MAX_VARIABLES],
)
    requires variables_in_bounds { (8 * variables ≤ length file.now) × Small model.now }
    requires target_len { (length target.old ≡ max_variables) × Small target.old }
    ensures { (length target.new ≡ max_variables) × Small target.new }
{
    let v = format::wide(head);
    let value = model[v];
    let stride = strides[v];
    let most = times(steps, stride);
    if v < variables {
        if rise_of(model, target, head) > most {
            let x = variables::variable(file, head);
            put(target, v, further(x, value, near(most)));
        }
    }
}

// The targets of these heads are at most so many strides from their values.
pub fn draw_in(
    file: &[u8],
    variables: usize,
    heads: &[u8; Format::MAX_VARIABLES],
    count: usize,
    steps: i64,
    strides: &[i64; Format::MAX_VARIABLES],
    model: &[i64; Format::MAX_VARIABLES],
    target: &mut [i64; Format::MAX_VARIABLES],
)
    requires variables_in_bounds { (8 * variables ≤ length file.now) × Small model.now }
    requires target_len { (length target.old ≡ max_variables) × Small target.old }
    ensures { (length target.new ≡ max_variables) × Small target.new }
{
    for &head in heads.iter().take(count) {
        draw_one(file, variables, head, steps, strides, model, target);
    }
}
