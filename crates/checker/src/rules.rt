// The rules under an assignment.
ghost use Rattle.std.specs.Prelude.{◌≡◌, length};
ghost use Rattle.program.specs.Program.{Program};
ghost use Rattle.program.specs.Reading.{AcceptedAs, Accepts};
ghost use Rattle.program.specs.Readings.{valued};
ghost use Rattle.meaning.specs.Founded.{Within};
ghost use Rattle.meaning.specs.Reduct.{system};
ghost use Rattle.sided.specs.Sides.{sides_length};
ghost use Rattle.ascent.specs.Level.{LevelPast};
ghost use Rattle.checker.specs.Met.{RulesAre};

use ascent::level::level_sides;
use ascent::sweeping::{Next, next_more};
use format::Format;
use program::Counts;
use sided::Sides;

// The first rule that is not met, or that all are, and where the field after the last of them stands.
#[derive(Drop)]
pub enum Rules {
    Unmet(usize),
    Met(usize),
}

// The first rule that is not met, or that there is none. Every position is read in the assignment, which is put on both of the lent sides.
pub fn first_unmet_rule(
    file: &[u8],
    counts: Counts,
    assigned: &[i64; Format::MAX_VARIABLES],
    sides: &mut [i64; Sides::LENGTH],
) -> Rules
    requires accepted_as { AcceptedAs file.now counts }
    requires level_past { LevelPast counts.variables (valued assigned.now) sides.old × (length sides.old ≡ sides_length) }
    requires within { (P : Program) → Accepts file.now P → Within (system P) (valued assigned.now) }
    ensures level_past_2 { LevelPast counts.variables (valued assigned.now) sides.new × (length sides.new ≡ sides_length) }
    ensures rules_are { (P : Program) → Accepts file.now P → RulesAre file.now P (valued assigned.now) result }
{
    let n = counts.variables;
    level_sides(n, assigned, sides);
    let next = next_more(file, counts, 0, 8 * n, sides, assigned, false);
    match next {
        Next::More(i, _, _) => Rules::Unmet(i),
        Next::Nothing(at) => Rules::Met(at),
    }
}
