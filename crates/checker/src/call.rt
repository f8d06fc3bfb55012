// The call check.
ghost use Rattle.std.specs.Prelude.{◌≡◌, ℕ, ◌*◌, ◌<◌, ◌≤◌, length, Ok};
ghost use Rattle.program.specs.Program.{Program};
ghost use Rattle.program.specs.Reading.{AcceptedAs, Accepts};
ghost use Rattle.meaning.specs.Founded.{Within};
ghost use Rattle.meaning.specs.Reduct.{system};
ghost use Rattle.meaning.specs.Stable.{RuleMet};
ghost use Rattle.reader.specs.Parts.{constraint_place};
ghost use Rattle.sided.specs.Sides.{sides_length};
ghost use Rattle.ascent.specs.Level.{LevelPast};
ghost use Rattle.verdict.specs.Checks.{answer_of, Judged, Checks, check_bytes};
ghost use Rattle.verdict.specs.Demands.{Demands};
ghost use Rattle.program.specs.Readings.{valued};

use crate::constraints::first_unmet_constraint;
use crate::rules::{Rules, first_unmet_rule};
use calls::open;
use comparison::comparing::compare;
use format::Format;
use meaning::Denied;
use program::Counts;
use reduct::loading;
use sided::Sides;
use verdict::Verdict;

// What the call asks of its report.
#[derive(Drop)]
pub struct Asks {}

impl Asks {
    // The bytes for each variable.
    pub const BYTES: usize = 12;

    // The constant of the code is that of the specification.
    pub fn quoted()
        ensures { Asks.BYTES ≡ check_bytes }
    {}
}

// An assignment that lies in its ranges and meets every rule; the constraints begin at `start`.
fn check_constraints(
    file: &[u8],
    counts: Counts,
    start: usize,
    values: &[i64; Format::MAX_VARIABLES],
    sides: &mut [i64; Sides::LENGTH],
    report: &mut [u8],
) -> Verdict
    requires accepted_as { AcceptedAs file.now counts }
    requires level_past { LevelPast counts.variables (valued values.now) sides.old × (length sides.old ≡ sides_length) }
    requires start_value { (P : Program) → Accepts file.now P → start ≡ constraint_place file.now P 0 }
    requires within { (P : Program) → Accepts file.now P → Within (system P) (valued values.now) }
    requires rule_met { (P : Program) → Accepts file.now P → (i : ℕ) → i < length P.rules → RuleMet P (valued values.now) i }
    requires variables_in_bounds { check_bytes * counts.variables ≤ length report.old }
    ensures { (P : Program) → Accepts file.now P → Judged P (valued values.now) report.old (answer_of (Ok result)) report.new }
{
    let unmet = first_unmet_constraint(file, start, counts, values);
    match unmet {
        Some(i) => Verdict::Constraint(i),
        None => compare(file, counts, values, sides, report),
    }
}

// An assignment that lies in its ranges.
fn check_rules(
    file: &[u8],
    counts: Counts,
    values: &[i64; Format::MAX_VARIABLES],
    report: &mut [u8],
) -> Verdict
    requires accepted_as { AcceptedAs file.now counts }
    requires within { (P : Program) → Accepts file.now P → Within (system P) (valued values.now) }
    requires variables_in_bounds { check_bytes * counts.variables ≤ length report.old }
    ensures { (P : Program) → Accepts file.now P → Judged P (valued values.now) report.old (answer_of (Ok result)) report.new }
{
    let mut sides = [0i64; Sides::LENGTH];
    let rules = first_unmet_rule(file, counts, values, &mut sides);
    match rules {
        Rules::Unmet(i) => Verdict::Rule(i),
        Rules::Met(start) => check_constraints(file, counts, start, values, &mut sides, report),
    }
}

// A call that is not turned down.
fn check_ranges(file: &[u8], assignment: &[u8], report: &mut [u8], counts: Counts) -> Verdict
    requires accepted_as { AcceptedAs file.now counts }
    requires assignment_len { (length assignment.now ≡ 2 * counts.variables) × (check_bytes * counts.variables ≤ length report.old) }
    ensures { Checks file.now assignment.now report.old (answer_of (Ok result)) report.new }
{
    let n = counts.variables;
    let mut loaded = [0i64; Format::MAX_VARIABLES];
    loading::load(assignment, &mut loaded);
    let outside = loading::first_outside(file, n, &loaded);
    match outside {
        Some(v) => Verdict::Range(v),
        None => check_rules(file, counts, &loaded, report),
    }
}

// The verdict on an assignment, and for an unfounded one the report, from its first byte on, for every file, assignment and lent report.
pub fn check(file: &[u8], assignment: &[u8], report: &mut [u8]) -> Result<Verdict, Denied>
    ensures checks { Checks file.now assignment.now report.old (answer_of result) report.new }
    ensures demands { Demands file.now assignment.now report.old (answer_of result) report.new }
{
    let counts = open(file, assignment, report.len(), Asks::BYTES)?;
    Ok(check_ranges(file, assignment, report, counts))
}
