// The constraints under an assignment.
ghost use Rattle.std.specs.Prelude.{◌≡◌, length};
ghost use Rattle.program.specs.Program.{Program};
ghost use Rattle.program.specs.Reading.{AcceptedAs, Accepts};
ghost use Rattle.reader.specs.Parts.{constraint_place};
ghost use Rattle.meaning.specs.Stable.{ConstraintMet};
ghost use Rattle.checker.specs.Met.{UnmetIs};
ghost use Rattle.program.specs.Readings.{valued};
ghost use Rattle.program.specs.Evaluable.{Small};

use evaluation::constraints;
use format::Format;
use parts::places::{next_at, value_at};
use program::Counts;

// The first constraint that is not met, or that there is none; the first of all stands at `start`.
pub fn first_unmet_constraint(
    file: &[u8],
    start: usize,
    counts: Counts,
    assigned: &[i64; Format::MAX_VARIABLES],
) -> Option<usize>
    requires accepted_as { AcceptedAs file.now counts }
    requires start_value { (P : Program) → Accepts file.now P → start ≡ constraint_place file.now P 0 }
    requires small { Small assigned.now }
    ensures { (P : Program) → Accepts file.now P → UnmetIs (ConstraintMet P (valued assigned.now)) (length P.constraints) result }
{
    let n = counts.constraints;
    let mut at = start;
    for i in 0..n {
        if !constraints::satisfied(value_at(file, at), assigned) {
            return Some(i);
        }
        at = next_at(file, at);
    }
    None
}
