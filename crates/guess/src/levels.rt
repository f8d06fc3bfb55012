// Levels: the last value that a rule lifts its head to by ones, while the heads of a line rise with it and all others stay. A circle that rises ever less, or up to
// a value that stays, ends there.
ghost use Rattle.std.specs.Prelude.{◌≡◌, ◌*◌, ◌≤◌, ◌<◌, length};
ghost use Rattle.format.specs.Limits.{max_variables, max_rules};
ghost use Rattle.program.specs.Program.{rule_of};
ghost use Rattle.program.specs.Evaluable.{Small, Evaluable};
ghost use Rattle.parts.specs.Values.{rule_header};
ghost use Rattle.run.specs.Running.{SomeRule};
ghost use Rattle.sequence.specs.Standing.{RulesStand};

use crate::numbers::{copy, minus, near, over, put};
use bodies::Readings;
use format::Format;
use parts::places::value_at;
use parts::{rules, variables};
use program::Variable;
use run::Source;
use run::demands::{demand, head_at};
use tables::{mask_in, place_in};

// A value of x, turned so that x rises.
fn turned(x: Variable, a: i64) -> i64 {
    if x.is_from_above() { minus(0, a) } else { a }
}

// The level of a sum over a divisor with the head x, by the sum with those that rise at 0 and at the end of the format's range.
fn sum_level(x: Variable, divisor: i64, low: i64, high: i64) -> Option<i64> {
    let weight = over(turned(x, minus(high, low)), Format::MAX_NUMBER);
    let room = minus(divisor, weight);
    if room < 1 {
        return None;
    }
    let more = if x.is_from_above() { weight } else { 0 };
    Some(over(minus(low, minus(0, more)), room))
}

// That of the rule of form 8 in a field's value.
fn quotient_level(
    value: &[u8],
    x: Variable,
    mask: u32,
    low: &[i64; Format::MAX_VARIABLES],
    high: &[i64; Format::MAX_VARIABLES],
    others: &[i64; Format::MAX_VARIABLES],
) -> Option<i64>
    requires evaluable { Evaluable (rule_of value.now) × (rule_header ≤ length value.now) × ((rule_of value.now).form ≡ 8) }
    requires small { Small low.now × Small high.now × Small others.now }
{
    let rule = rules::header(value);
    let body = rules::body(value);
    let divisor = rules::divisor(value);
    let at_low = Readings {
        kept: mask,
        first: low,
        second: others,
    };
    let at_high = Readings {
        first: high,
        ..at_low
    };
    let least = bodies::sum(rule.c, body, at_low);
    let most = bodies::sum(rule.c, body, at_high);
    sum_level(x, divisor, least, most)
}

// The level of a smallest, or of a largest whose head is from above: what it gives where those that rise are at the end of the format's range, unless it is one of them.
fn least_level(x: Variable, c: i64, given: Option<i64>) -> Option<i64> {
    let Some(a) = given else {
        return None;
    };
    if turned(x, minus(a, c)) == Format::MAX_NUMBER {
        return None;
    }
    Some(a)
}

// The form of a smallest in the order of x.
fn least_form(x: Variable) -> u8 {
    if x.is_from_above() { 2 } else { 3 }
}

// The level of the rule whose field stands at `at`, turned; where it has none, the lowest number.
fn level_at(
    file: &[u8],
    at: usize,
    mask: u32,
    low: &[i64; Format::MAX_VARIABLES],
    high: &[i64; Format::MAX_VARIABLES],
    others: &[i64; Format::MAX_VARIABLES],
) -> i64
    requires some_rule { SomeRule file.now at }
    requires small { Small low.now × Small high.now × Small others.now }
{
    let x = variables::variable(file, head_at(file, at));
    let value = value_at(file, at);
    let rule = rules::header(value);
    if rule.form == 8 {
        return turned_or_least(x, quotient_level(value, x, mask, low, high, others));
    }
    if rule.form == least_form(x) {
        let given = demand(file, at, mask, high, others);
        return turned_or_least(x, least_level(x, rule.c, given));
    }
    0 - Format::MAX_NUMBER
}

// A level turned, and the lowest number for none.
fn turned_or_least(x: Variable, level: Option<i64>) -> i64 {
    let Some(a) = level else {
        return 0 - Format::MAX_NUMBER;
    };
    turned(x, a)
}

// That of rule i, if it is one.
fn level_of(
    source: &Source,
    i: usize,
    low: &[i64; Format::MAX_VARIABLES],
    high: &[i64; Format::MAX_VARIABLES],
) -> i64
    requires rules_le_max_rules { (source.now.counts.rules ≤ max_rules) × RulesStand source.now.file.now source.now.offsets.now source.now.counts.rules }
    requires small { Small low.now × Small high.now × Small source.now.others.now }
{
    if i >= source.counts.rules {
        return 0 - Format::MAX_NUMBER;
    }
    level_at(
        source.file,
        place_in(source.offsets, i),
        mask_in(source.masks, i),
        low,
        high,
        source.others,
    )
}

// The highest level of the first `count` rules of the line.
fn highest_level(
    source: &Source,
    line: &[usize; Format::MAX_VARIABLES],
    count: usize,
    low: &[i64; Format::MAX_VARIABLES],
    high: &[i64; Format::MAX_VARIABLES],
) -> i64
    requires rules_le_max_rules { (source.now.counts.rules ≤ max_rules) × RulesStand source.now.file.now source.now.offsets.now source.now.counts.rules × (count ≤ max_variables) }
    requires small { Small low.now × Small high.now × Small source.now.others.now }
{
    let mut most = 0 - Format::MAX_NUMBER;
    for &i in &line[..count] {
        let level = level_of(source, i, low, high);
        if most < level {
            most = level;
        }
    }
    most
}

// A head that rises is put at 0 in one list and at the end of the format's range in the other.
fn part_one(
    file: &[u8],
    variables: usize,
    head: u8,
    model: &[i64; Format::MAX_VARIABLES],
    target: &[i64; Format::MAX_VARIABLES],
    low: &mut [i64; Format::MAX_VARIABLES],
    high: &mut [i64; Format::MAX_VARIABLES],
)
    requires variables_in_bounds { 8 * variables ≤ length file.now }
    requires low_len { (length low.old ≡ max_variables) × Small low.old × (length high.old ≡ max_variables) × Small high.old }
    ensures { (length low.new ≡ max_variables) × Small low.new × (length high.new ≡ max_variables) × Small high.new }
{
    let v = format::wide(head);
    let value = model[v];
    let goal = target[v];
    if v >= variables {
        return;
    }
    if value == goal {
        return;
    }
    let x = variables::variable(file, head);
    put(low, v, 0);
    put(high, v, turned(x, Format::MAX_NUMBER));
}

// The values, with every head that rises at 0 in one list and at the end of the format's range in the other.
fn part_all(
    file: &[u8],
    variables: usize,
    heads: &[u8; Format::MAX_VARIABLES],
    count: usize,
    model: &[i64; Format::MAX_VARIABLES],
    target: &[i64; Format::MAX_VARIABLES],
    low: &mut [i64; Format::MAX_VARIABLES],
    high: &mut [i64; Format::MAX_VARIABLES],
)
    requires variables_in_bounds { 8 * variables ≤ length file.now }
    requires low_len { (length low.old ≡ max_variables) × Small low.old × (length high.old ≡ max_variables) × Small high.old }
    ensures { (length low.new ≡ max_variables) × Small low.new × (length high.new ≡ max_variables) × Small high.new }
{
    copy(low, model, variables);
    copy(high, model, variables);
    for &head in heads.iter().take(count) {
        part_one(file, variables, head, model, target, low, high);
    }
}

// The later of a value of x and another one.
fn later(x: Variable, a: i64, value: i64) -> i64 {
    if x.is_before(a, value) { value } else { a }
}

// The target of one head is no further than the level.
fn level_one(
    file: &[u8],
    variables: usize,
    head: u8,
    level: i64,
    model: &[i64; Format::MAX_VARIABLES],
    target: &mut [i64; Format::MAX_VARIABLES],
)
    requires { (8 * variables ≤ length file.now) × (length target.old ≡ max_variables) × Small target.old }
    ensures { (length target.new ≡ max_variables) × Small target.new }
{
    let v = format::wide(head);
    let value = model[v];
    let goal = target[v];
    if v >= variables {
        return;
    }
    let x = variables::variable(file, head);
    let most = later(x, near(turned(x, level)), value);
    if x.is_before(most, goal) {
        put(target, v, most);
    }
}

// The targets of these heads are no further than the level.
fn level_all(
    file: &[u8],
    variables: usize,
    heads: &[u8; Format::MAX_VARIABLES],
    count: usize,
    level: i64,
    model: &[i64; Format::MAX_VARIABLES],
    target: &mut [i64; Format::MAX_VARIABLES],
)
    requires { (8 * variables ≤ length file.now) × (length target.old ≡ max_variables) × Small target.old }
    ensures { (length target.new ≡ max_variables) × Small target.new }
{
    for &head in heads.iter().take(count) {
        level_one(file, variables, head, level, model, target);
    }
}

// The targets of the heads of the line are no further than the highest level of its rules.
pub fn level(
    source: &Source,
    line: &[usize; Format::MAX_VARIABLES],
    heads: &[u8; Format::MAX_VARIABLES],
    count: usize,
    model: &[i64; Format::MAX_VARIABLES],
    target: &mut [i64; Format::MAX_VARIABLES],
)
    requires variables_in_bounds { (8 * source.now.counts.variables ≤ length source.now.file.now) × (source.now.counts.rules ≤ max_rules) × RulesStand source.now.file.now source.now.offsets.now source.now.counts.rules × (count ≤ max_variables) }
    requires small { Small source.now.others.now }
    requires target_len { (length target.old ≡ max_variables) × Small target.old }
    ensures { (length target.new ≡ max_variables) × Small target.new }
{
    let mut low = [0i64; Format::MAX_VARIABLES];
    let mut high = [0i64; Format::MAX_VARIABLES];
    part_all(
        source.file,
        source.counts.variables,
        heads,
        count,
        model,
        target,
        &mut low,
        &mut high,
    );
    let most = highest_level(source, line, count, &low, &high);
    level_all(
        source.file,
        source.counts.variables,
        heads,
        count,
        most,
        model,
        target,
    );
}
