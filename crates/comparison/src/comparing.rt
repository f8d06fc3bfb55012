// An assignment that lies in its ranges and meets every rule and constraint: stable or unfounded.
ghost use Rattle.std.specs.Prelude.{◌≡◌, ◌*◌, ◌≤◌, length, Ok};
ghost use Rattle.words.specs.Bit.{has};
ghost use Rattle.program.specs.Program.{Program};
ghost use Rattle.program.specs.Reading.{AcceptedAs, Accepts};
ghost use Rattle.meaning.specs.Stable.{Meets};
ghost use Rattle.sided.specs.Sides.{sides_length};
ghost use Rattle.ascent.specs.Level.{LevelPast};
ghost use Rattle.verdict.specs.Checks.{answer_of, Judged, check_bytes};
ghost use Rattle.comparison.specs.Shows.{entry_count, ShowsSets};
ghost use Rattle.program.specs.Readings.{valued};
ghost use Rattle.program.specs.Evaluable.{Small};

use crate::reporting::write_report;
use conditions::asked::asked;
use conditions::asking::Asked;
use conditions::short::{Parts, in_parts, short_set};
use format::Format;
use program::Counts;
use sided::Sides;
use solving::run;
use verdict::Verdict;

// The set is shown, with its conditions.
fn show(
    report: &mut [u8],
    parts: Parts,
    asked: Asked,
    model: &[i64; Format::MAX_VARIABLES],
    assigned: &[i64; Format::MAX_VARIABLES],
) -> Verdict
    requires words_in_bounds { 4 * entry_count (has parts.below.words) (has parts.above.words) (has asked.most.words) (has asked.least.words) ≤ length report.old }
    requires small { Small model.now × Small assigned.now }
    ensures { ShowsSets (has parts.below.words) (has parts.above.words) (has asked.most.words) (has asked.least.words)
        (valued model.now) (valued assigned.now) report.old report.new result }
{
    write_report(report, parts, asked, model, assigned);
    let below = parts.below.count() as usize;
    let above = parts.above.count() as usize;
    let most = asked.most.count() as usize;
    let least = asked.least.count() as usize;
    Verdict::Unfounded(below + above, most + least)
}

// The least model is compared with the assignment. The sides are lent, and what stands there is overwritten.
pub fn compare(
    file: &[u8],
    counts: Counts,
    assigned: &[i64; Format::MAX_VARIABLES],
    sides: &mut [i64; Sides::LENGTH],
    report: &mut [u8],
) -> Verdict
    requires accepted_as { AcceptedAs file.now counts }
    requires level_past { LevelPast counts.variables (valued assigned.now) sides.old × (length sides.old ≡ sides_length) }
    requires meets { (P : Program) → Accepts file.now P → Meets P (valued assigned.now) }
    requires variables_in_bounds { check_bytes * counts.variables ≤ length report.old }
    ensures { (P : Program) → Accepts file.now P → Judged P (valued assigned.now) report.old (answer_of (Ok result)) report.new }
{
    let n = counts.variables;
    let mut model = [0i64; Format::MAX_VARIABLES];
    // The assignment meets every rule, so there is a model.
    let _ = run(file, counts, assigned, true, sides, &mut model);
    let set = short_set(file, n, assigned, &model);
    if set.count() == 0 {
        return Verdict::Stable;
    }
    let conditions = asked(file, counts, set);
    let parts = in_parts(file, n, set);
    show(report, parts, conditions, &model, assigned)
}
