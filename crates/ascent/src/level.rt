// Both sides as assigned.
ghost use Rattle.std.specs.Prelude.{◌≡◌, true, false, ℕ, ◌≤◌, length};
ghost use Rattle.format.specs.Limits.{max_variables};
ghost use Rattle.program.specs.Readings.{valued};
ghost use Rattle.sided.specs.Sides.{sides_length};
ghost use Rattle.ascent.specs.Level.{LevelSides};

use format::Format;
use sided::{Sides, write};

// The first n variables have their assigned values on both sides; those past the last one stay.
pub fn level_sides(
    n: usize,
    assigned: &[i64; Format::MAX_VARIABLES],
    sides: &mut [i64; Sides::LENGTH],
)
    requires n_le_max_variables { n ≤ max_variables }
    requires sides_len { length sides.old ≡ sides_length }
    ensures sides_len_2 { length sides.new ≡ sides_length }
    ensures level_sides { LevelSides n (valued assigned.now) sides.old sides.new }
{
    for (v, &given) in assigned[..n].iter().enumerate() {
        write(sides, false, v as u8, given);
        write(sides, true, v as u8, given);
    }
}
