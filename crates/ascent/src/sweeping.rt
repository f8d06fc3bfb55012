// Sweeps over the rules in file order: a rule that demands more than its head has raises it at once. Most runs end in a few sweeps.
ghost use Rattle.std.specs.Prelude.{◌≡◌, true, ℕ, ◌*◌, ◌<◌, ◌≤◌, length};
ghost use Rattle.format.specs.Limits.{max_variables, max_rules};
ghost use Rattle.program.specs.Program.{Program, variable_in, variables_at};
ghost use Rattle.program.specs.Reading.{AcceptedAs, Accepts};
ghost use Rattle.program.specs.Readings.{Valuation};
ghost use Rattle.program.specs.Evaluable.{Small};
ghost use Rattle.meaning.specs.Reduct.{Reckoning};
ghost use Rattle.reader.specs.Parts.{rule_place};
ghost use Rattle.sided.specs.Sides.{sides_length};
ghost use Rattle.sided.specs.Reached.{risen};
ghost use Rattle.run.specs.Running.{head_of, RuleStands, SomeRule};
ghost use Rattle.ascent.specs.Ascending.{most_sweeps, AllReadOn, Climbing, SomeClimbing, RaisedSide, NextIs, ArrivedBelow, SweepUpIs, ClimbIs};

use crate::looking::look;
use format::Format;
use parts::places::next_at;
use parts::variables;
use program::Counts;
use run::NoModel;
use run::demands::head_at;
use sided::{Sides, read, write};

// The next rule that demands more than its head has, where its field stands and what it demands; or that there is none, and where the field after the last rule stands.
#[derive(Drop)]
pub enum Next {
    More(usize, usize, i64),
    Nothing(usize),
}

#[derive(Drop)]
pub struct Sweeps {}

impl Sweeps {
    // The sweeps of a run at most.
    pub const MOST: usize = 8;

    // The constant of the code is that of the specification.
    pub fn quoted()
        ensures { Sweeps.MOST ≡ most_sweeps }
    {}
}

// From rule i on, whose field stands at `at`, the next that demands more.
pub fn next_more(
    file: &[u8],
    counts: Counts,
    i: usize,
    at: usize,
    sides: &[i64; Sides::LENGTH],
    stops: &[i64; Format::MAX_VARIABLES],
    full: bool,
) -> Next
    requires accepted_as { AcceptedAs file.now counts }
    requires at_value { (P : Program) → Accepts file.now P → at ≡ rule_place file.now P i }
    requires i_le_rules { (i ≤ counts.rules) × Small sides.now }
    ensures { (P : Program) (R : Reckoning) (θ : Valuation) → Accepts file.now P
        → AllReadOn P R θ stops.now full sides.now → NextIs file.now P R θ (risen P.variables sides.now) i result }
{
    let rules = counts.rules;
    let mut place = at;
    for k in i..rules {
        let asked = look(file, place, sides, stops, full);
        if let Some(a) = asked {
            return Next::More(k, place, a);
        }
        place = next_at(file, place);
    }
    Next::Nothing(place)
}

// The head of the rule whose field stands at `at` gets the value a; or a is past its far end, and nothing changes.
fn raise(file: &[u8], at: usize, a: i64, sides: &mut [i64; Sides::LENGTH]) -> bool
    requires some_rule { SomeRule file.now at }
    requires sides_len { length sides.old ≡ sides_length }
    ensures sides_len_2 { length sides.new ≡ sides_length }
    ensures raised_side { (P : Program) (i : ℕ) → RuleStands file.now P i at
        → RaisedSide (variable_in P.variables (head_of P i)) (head_of P i) a sides.old sides.new result }
{
    let head = head_at(file, at);
    let x = variables::variable(file, head);
    if x.is_before(x.far(), a) {
        return false;
    }
    write(sides, x.is_from_above(), head, a);
    true
}

// Every rule once, in file order.
fn sweep(
    file: &[u8],
    counts: Counts,
    sides: &mut [i64; Sides::LENGTH],
    stops: &[i64; Format::MAX_VARIABLES],
    full: bool,
) -> Result<usize, NoModel>
    requires accepted_as { AcceptedAs file.now counts }
    requires some_climbing { SomeClimbing file.now stops.now full sides.old }
    requires sides_len { length sides.old ≡ sides_length }
    ensures sides_len_2 { length sides.new ≡ sides_length }
    ensures sweep_up_is { (P : Program) (R : Reckoning) (θ others : Valuation) → Accepts file.now P
        → Climbing P R θ others stops.now full sides.old
        → SweepUpIs P R θ others stops.now full counts.rules sides.new result }
{
    let mut raises = 0;
    let mut i = 0;
    let mut at = 8 * counts.variables;
    loop {
        let next = next_more(file, counts, i, at, sides, stops, full);
        let Next::More(j, place, a) = next else {
            return Ok(raises);
        };
        if !raise(file, place, a, sides) {
            return Err(NoModel);
        }
        raises += 1;
        i = j + 1;
        at = next_at(file, place);
    }
}

// Whether each of the first n variables, those that are founded, has its value in `stops`.
fn have_arrived(
    file: &[u8],
    n: usize,
    sides: &[i64; Sides::LENGTH],
    stops: &[i64; Format::MAX_VARIABLES],
) -> bool
    requires { (8 * n ≤ length file.now) × (n ≤ max_variables) }
    ensures { result ≡ true → ArrivedBelow (variables_at file.now n) n stops.now sides.now }
{
    for (v, &stop) in stops[..n].iter().enumerate() {
        let x = variables::variable(file, v as u8);
        let has = read(sides, x.is_from_above(), v as u8);
        if has != stop && x.is_founded() {
            return false;
        }
    }
    true
}

// Whether another sweep pays, after `done` sweeps with `last` raises in the last and `before` in the one before it: after the third, where raises have more than
// halved. With `full` heads that have arrived are passed over: then it pays while the raises grow fewer.
fn pays(full: bool, done: usize, before: usize, last: usize) -> bool
    requires { last ≤ max_rules }
    ensures { result ≡ true → done < most_sweeps }
{
    if Sweeps::MOST <= done {
        return false;
    }
    if full && last < before {
        return true;
    }
    done < 3 || 2 * last < before
}

// Sweeps while they pay, to the least model or not so far. With `full` no value passes its stop, and where all have arrived the run ends.
pub fn climb(
    file: &[u8],
    counts: Counts,
    sides: &mut [i64; Sides::LENGTH],
    stops: &[i64; Format::MAX_VARIABLES],
    full: bool,
) -> Option<Result<(), NoModel>>
    requires accepted_as { AcceptedAs file.now counts }
    requires some_climbing { SomeClimbing file.now stops.now full sides.old }
    requires sides_len { length sides.old ≡ sides_length }
    ensures sides_len_2 { length sides.new ≡ sides_length }
    ensures climb_is { (P : Program) (R : Reckoning) (θ others : Valuation) → Accepts file.now P
        → Climbing P R θ others stops.now full sides.old → ClimbIs P R θ sides.new result }
{
    let n = counts.variables;
    let mut done = 0;
    let mut before = 0;
    let mut last = 0;
    while pays(full, done, before, last) {
        let swept = sweep(file, counts, sides, stops, full);
        let Ok(raises) = swept else {
            return Some(Err(NoModel));
        };
        if raises == 0 {
            return Some(Ok(()));
        }
        if full && have_arrived(file, n, sides, stops) {
            return Some(Ok(()));
        }
        before = last;
        last = raises;
        done += 1;
    }
    None
}
