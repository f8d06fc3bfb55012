// Steps between values, and what they weigh.
ghost use Rattle.std.specs.Prelude.{◌≡◌, ◌+◌, ◌^◌, ◌<◌, pos, nat_abs, ◌≤ℤ◌};
ghost use Rattle.format.specs.Limits.{max_terms};
ghost use Rattle.program.specs.Evaluable.{Small};
ghost use Rattle.steady.specs.Estimate.{distance, further, weight};
ghost use Rattle.steady.specs.Steps.{steps_of};

use bodies::{Readings, numbers};
use format::Format;
use program::Variable;

// The steps from a to b.
pub fn distance(a: i64, b: i64) -> i64
    requires { nat_abs a + nat_abs b < 2 ^ 63 }
    ensures { result ≡ pos (distance a b) }
{
    if a < b { b - a } else { a - b }
}

// The steps of variable x at position i to its aim; a position whose bit is not set stays.
pub fn steps_of(x: u8, i: usize, readings: Readings, aims: &[i64; Format::MAX_VARIABLES]) -> i64
    requires { (i < max_terms) × Small readings.first.now × Small aims.now }
    ensures { result ≡ pos (steps_of readings.entry.kept readings.entry.first.now aims.now i x) }
{
    let v = format::wide(x);
    if (readings.kept >> i) % 2 == 1 {
        distance(readings.first[v], aims[v])
    } else {
        0
    }
}

// a, so many steps on in the order of x.
pub fn further(x: Variable, a: i64, steps: i64) -> i64
    requires { nat_abs a + nat_abs steps < 2 ^ 63 }
    ensures { result ≡ further x a steps }
{
    if x.is_from_above() {
        a - steps
    } else {
        a + steps
    }
}

// The weight that a position takes of the room left, by its number, its stride and its steps.
pub fn weight(room: i64, number: i64, stride: i64, steps: i64) -> i64
    requires { (pos 0 ≤ℤ room) × (nat_abs room + nat_abs number < 2 ^ 63) × (pos 1 ≤ℤ stride) }
    ensures { result ≡ pos (weight (nat_abs room) number (nat_abs stride) (nat_abs steps)) }
{
    if steps == 0 {
        return 0;
    }
    numbers::extreme(false, room / stride, numbers::size(number))
}
