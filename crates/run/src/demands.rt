// One step on the way to the least model: the lowest rule that demands more than its head has.
ghost use Rattle.std.specs.Prelude.{◌≡◌, ℕ, ◌≤◌, length, get_or};
ghost use Rattle.program.specs.Fields.{value_at, next_at};
ghost use Rattle.program.specs.Program.{Program, rule_of, rule_in};
ghost use Rattle.program.specs.Variables.{cut_off};
ghost use Rattle.program.specs.Evaluate.{evaluate};
ghost use Rattle.parts.specs.Values.{rule_header};
ghost use Rattle.bodies.specs.Readings.{reading_of};
ghost use Rattle.evaluation.specs.Past.{past_only};
ghost use Rattle.words.specs.Bit.{has};
ghost use Rattle.meaning.specs.Reduct.{Reckoning};
ghost use Rattle.run.specs.Running.{RuleStands, SomeRule, AsAssigned, MetOutside, stopped, demand_of, LookedAt, Inside, Takes, Ready, Stepped};
ghost use Rattle.run.specs.Sourced.{ReckonsBy};
ghost use Rattle.tables.specs.Tabled.{row_words};
ghost use Rattle.program.specs.Readings.{Valuation, valued};
ghost use Rattle.program.specs.Evaluable.{Small};

use crate::{Masks, Source};
use bodies::Readings;
use evaluation::rules::{gives, gives_past};
use format::Format;
use parts::places::value_at;
use parts::{rules, variables};
use program::Variable;
use tables::{Tables, mask_in, place_in};

// What the rule whose field stands at `at` gives, the positions whose bit is set in the mask read in the model.
pub fn demand(
    file: &[u8],
    at: usize,
    mask: u32,
    model: &[i64; Format::MAX_VARIABLES],
    others: &[i64; Format::MAX_VARIABLES],
) -> Option<i64>
    requires some_rule { SomeRule file.now at }
    requires small { Small model.now × Small others.now }
    ensures { (P : Program) (i : ℕ) → RuleStands file.now P i at
        → result ≡ evaluate (rule_in P.rules i) (reading_of mask model.now others.now (rule_in P.rules i).terms) }
{
    let readings = Readings {
        kept: mask,
        first: model,
        second: others,
    };
    gives(value_at(file, at), readings)
}

// The same, where that is past z in the order of x.
fn demand_past(
    file: &[u8],
    at: usize,
    mask: u32,
    model: &[i64; Format::MAX_VARIABLES],
    others: &[i64; Format::MAX_VARIABLES],
    x: Variable,
    z: i64,
) -> Option<i64>
    requires some_rule { SomeRule file.now at }
    requires small { Small model.now × Small others.now }
    ensures { (P : Program) (i : ℕ) → RuleStands file.now P i at
        → result ≡ past_only x z (evaluate (rule_in P.rules i) (reading_of mask model.now others.now (rule_in P.rules i).terms)) }
{
    let readings = Readings {
        kept: mask,
        first: model,
        second: others,
    };
    gives_past(value_at(file, at), readings, x, z)
}

// The head of the rule whose field stands at `at`.
pub fn head_at(file: &[u8], at: usize) -> u8
    requires { (next_at file.now at ≤ length file.now) × (rule_header ≤ length (value_at file.now at)) }
    ensures { result ≡ (rule_of (value_at file.now at)).head }
{
    let rule = rules::header(value_at(file, at));
    rule.head
}

// The head of rule i.
pub fn head_of(file: &[u8], offsets: &[u16], i: usize) -> u8
    requires { SomeRule file.now (get_or offsets.now i 0) }
    ensures { result ≡ (rule_of (value_at file.now (get_or offsets.now i 0))).head }
{
    head_at(file, place_in(offsets, i))
}

// Whether what is given is more than the value of the head, whose variable is x.
fn exceeds(x: Variable, given: Option<i64>, value: i64) -> Option<i64>
    ensures { result ≡ demand_of x given value }
{
    let Some(a) = given else {
        return None;
    };
    if x.is_before(value, a) { Some(a) } else { None }
}

// What is given to the head x, no further than its stop.
fn cut_off(x: Variable, stop: i64, given: Option<i64>) -> Option<i64>
    ensures { result ≡ cut_off x stop given }
{
    let Some(a) = given else {
        return None;
    };
    if x.is_before(stop, a) {
        Some(stop)
    } else {
        Some(a)
    }
}

// What is given to the head x where lifts stop, if `cut` says that they do: the stop itself where the mask says so, else no more.
pub fn stop_at(cut: bool, x: Variable, stop: i64, mask: u32, given: Option<i64>) -> Option<i64>
    ensures { result ≡ stopped cut x stop mask given }
{
    if !cut {
        return given;
    }
    if (mask >> Masks::FREE) % 2 == 1 {
        return Some(stop);
    }
    cut_off(x, stop, given)
}

// Whether the rule whose field stands at `at` demands more than its head has; with `cut` what it demands stops at the head's value in `stops`.
pub fn look_at(
    source: &Source,
    at: usize,
    mask: u32,
    model: &[i64; Format::MAX_VARIABLES],
) -> Option<i64>
    requires some_rule { SomeRule source.now.file.now at }
    requires small { Small model.now × Small source.now.others.now }
    ensures { (P : Program) (i : ℕ) → RuleStands source.now.file.now P i at
        → LookedAt P mask source.now.cut source.now.stops.now source.now.others.now model.now i result }
{
    let head = head_at(source.file, at);
    let x = variables::variable(source.file, head);
    let v = format::wide(head);
    let value = model[v];
    if !source.cut {
        let past = demand_past(source.file, at, mask, model, source.others, x, value);
        return exceeds(x, past, value);
    }
    let given = demand(source.file, at, mask, model, source.others);
    let stop = source.stops[v];
    exceeds(x, stop_at(source.cut, x, stop, mask, given), value)
}

// Whether rule i does, by its place and its mask in the tables.
pub fn look(source: &Source, i: usize, model: &[i64; Format::MAX_VARIABLES]) -> Option<i64>
    requires some_rule { SomeRule source.now.file.now (get_or source.now.offsets.now i 0) }
    requires small { Small model.now × Small source.now.others.now }
    ensures { (P : Program) → RuleStands source.now.file.now P i (get_or source.now.offsets.now i 0)
        → LookedAt P (get_or source.now.masks.now i 0) source.now.cut source.now.stops.now source.now.others.now model.now i result }
{
    let at = place_in(source.offsets, i);
    let mask = mask_in(source.masks, i);
    look_at(source, at, mask, model)
}

// The lowest rule of the set leaves it.
fn take_lowest(waiting: &mut [u64; Tables::ROW]) -> Option<usize>
    requires { length waiting.old ≡ row_words }
    ensures waiting_len { length waiting.new ≡ row_words }
    ensures takes { Takes (has waiting.old) (has waiting.new) result }
{
    let Some(i) = words::next_bit(waiting, 0) else {
        return None;
    };
    words::drop_bit(waiting, i);
    Some(i)
}

// The lowest rule of the waiting set that demands more than its head has; it and those below it leave the set.
pub fn step(
    source: &Source,
    model: &[i64; Format::MAX_VARIABLES],
    waiting: &mut [u64; Tables::ROW],
) -> Option<(usize, i64)>
    requires ready { Ready source.now.file.now source.now.offsets.now waiting.old }
    requires small { Small model.now × Small source.now.others.now }
    requires waiting_len { length waiting.old ≡ row_words }
    ensures waiting_len_2 { length waiting.new ≡ row_words }
    ensures inside { Inside (has waiting.new) (has waiting.old) }
    ensures stepped { (P : Program) (R : Reckoning) (θ : Valuation)
        → ReckonsBy source.now P R θ
        → AsAssigned P θ model.now → MetOutside P R θ (valued model.now) (has waiting.old)
        → Stepped P R θ (valued model.now) (has waiting.new) result }
{
    loop {
        let Some(i) = take_lowest(waiting) else {
            return None;
        };
        let found = look(source, i, model);
        if let Some(a) = found {
            return Some((i, a));
        }
    }
}
