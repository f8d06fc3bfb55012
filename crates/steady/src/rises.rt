// How far the steps of a rule's positions to their aims lift what it amounts to.
ghost use Rattle.std.specs.Prelude.{◌≡◌, ◌*◌, ◌/◌, ◌<◌, ◌≤◌, pos, nat_abs, ◌≤ℤ◌, length};
ghost use Rattle.format.specs.Limits.{max_terms, max_number, max_coefficient, max_divisor};
ghost use Rattle.program.specs.Program.{terms_of};
ghost use Rattle.program.specs.Evaluable.{Small, Coefficients};
ghost use Rattle.bodies.specs.Readings.{reading_of};
ghost use Rattle.steady.specs.Estimate.{rise_below, number_at, factor_rise};
ghost use Rattle.steady.specs.Steps.{steps_of, steps_at, Shared};
ghost use Rattle.steady.specs.Strides.{stride_of, stride_at};

use crate::{steps, strides};
use bodies::{Readings, numbers};
use format::Format;
use parts::terms;
use program::Term;

// What a position takes of a sum's room, and how far it lifts the sum.
#[derive(Drop)]
struct Share {
    taken: i64,
    rise: i64,
}

// The share of the term at position i in the room left.
fn share_of(
    room: i64,
    term: Term,
    i: usize,
    readings: Readings,
    aims: &[i64; Format::MAX_VARIABLES],
    strides: &[i64; Format::MAX_VARIABLES],
) -> Share
    requires pos_bound { (pos 0 ≤ℤ room) × (nat_abs room ≤ max_divisor * max_number) × (nat_abs term.number ≤ max_coefficient) × (i < max_terms) }
    requires small { Small readings.first.now × Small aims.now }
    ensures { Shared (nat_abs room) term.number (stride_of strides.now term.variable)
        (steps_of readings.entry.kept readings.entry.first.now aims.now i term.variable) result.taken result.rise }
{
    let steps = steps::steps_of(term.variable, i, readings, aims);
    let stride = strides::stride_of(strides, term.variable);
    let weight = steps::weight(room, term.number, stride, steps);
    let taken = numbers::times(weight, stride);
    let rise = numbers::times(weight, steps);
    Share { taken, rise }
}

// The rise of a sum that has this room: once none is left it is whole.
pub fn rise(
    room: i64,
    body: &[u8],
    readings: Readings,
    aims: &[i64; Format::MAX_VARIABLES],
    strides: &[i64; Format::MAX_VARIABLES],
) -> i64
    requires pos_bound { (pos 0 ≤ℤ room) × (nat_abs room ≤ max_divisor * max_number) × (length body.now / 4 ≤ max_terms) }
    requires coefficients { Coefficients (terms_of body.now) }
    requires small { Small readings.first.now × Small aims.now }
    ensures { result ≡ pos (rise_below (nat_abs room) (number_at (terms_of body.now)) (stride_at strides.now (terms_of body.now))
        (steps_at readings.entry.kept readings.entry.first.now aims.now (terms_of body.now)) (length (terms_of body.now))) }
{
    let n = body.len() / 4;
    let mut left = room;
    let mut total: i64 = 0;
    for i in 0..n {
        if left == 0 {
            return total;
        }
        let term = terms::term(body, i);
        let part = share_of(left, term, i, readings, aims, strides);
        total = total + part.rise;
        left = left - part.taken;
    }
    total
}

// The rise of a product: the first factor's steps where it moves and the second is at least 1, else the second's where the first is.
pub fn factor_rise(body: &[u8], readings: Readings, aims: &[i64; Format::MAX_VARIABLES]) -> i64
    requires in_bounds { 8 ≤ length body.now }
    requires small { Small readings.first.now × Small aims.now }
    ensures { result ≡ pos (factor_rise (reading_of readings.entry.kept readings.entry.first.now readings.entry.second.now (terms_of body.now))
        (reading_of readings.entry.kept aims.now readings.entry.second.now (terms_of body.now))) }
{
    let left = terms::term(body, 0);
    let steps = steps::steps_of(left.variable, 0, readings, aims);
    let moves = steps != 0;
    let lifts = 1 <= readings.read_position(body, 1);
    if moves & lifts {
        return steps;
    }
    if 1 <= readings.read_position(body, 0) {
        let right = terms::term(body, 1);
        return steps::steps_of(right.variable, 1, readings, aims);
    }
    0
}
