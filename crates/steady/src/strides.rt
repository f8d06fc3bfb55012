// The strides of variables, by a list of any numbers.
ghost use Rattle.std.specs.Prelude.{◌≡◌, ◌+◌, ◌*◌, ◌/◌, ◌<◌, ◌≤◌, pos, nat_abs, ◌≤ℤ◌, length};
ghost use Rattle.format.specs.Limits.{max_terms};
ghost use Rattle.program.specs.Tables.{any_below};
ghost use Rattle.program.specs.Program.{terms_of};
ghost use Rattle.program.specs.Evaluable.{Small};
ghost use Rattle.steady.specs.Estimate.{outruns};
ghost use Rattle.steady.specs.Steps.{steps_at};
ghost use Rattle.steady.specs.Strides.{stride_by, stride_of, stride_at};

use crate::steps;
use bodies::Readings;
use format::Format;
use parts::terms;

// A number from 1 to the largest of the format is a stride; for any other it is 1.
pub fn stride_by(a: i64) -> i64
    ensures { result ≡ pos (stride_by a) }
{
    let least = 1 <= a;
    let most = a <= Format::MAX_NUMBER;
    if least & most { a } else { 1 }
}

// The stride of variable x.
pub fn stride_of(strides: &[i64; Format::MAX_VARIABLES], x: u8) -> i64
    ensures { result ≡ pos (stride_of strides.now x) }
{
    let v = format::wide(x);
    stride_by(strides[v])
}

// Whether position i is plain, moves and has a longer stride than the head.
fn outruns(
    own: i64,
    body: &[u8],
    i: usize,
    readings: Readings,
    aims: &[i64; Format::MAX_VARIABLES],
    strides: &[i64; Format::MAX_VARIABLES],
) -> bool
    requires pos_bound { (pos 1 ≤ℤ own) × (4 * i + 4 ≤ length body.now) × (i < max_terms) }
    requires small { Small readings.first.now × Small aims.now }
    ensures { result ≡ outruns (nat_abs own) (stride_at strides.now (terms_of body.now)) (terms_of body.now)
        (steps_at readings.entry.kept readings.entry.first.now aims.now (terms_of body.now)) i }
{
    let term = terms::term(body, i);
    let steps = steps::steps_of(term.variable, i, readings, aims);
    let stride = stride_of(strides, term.variable);
    let plain = term.op == 0;
    let moves = steps != 0;
    let longer = own < stride;
    plain & (moves & longer)
}

// Whether any position is so.
pub fn any_outruns(
    own: i64,
    body: &[u8],
    readings: Readings,
    aims: &[i64; Format::MAX_VARIABLES],
    strides: &[i64; Format::MAX_VARIABLES],
) -> bool
    requires pos_bound { (pos 1 ≤ℤ own) × (length body.now / 4 ≤ max_terms) }
    requires small { Small readings.first.now × Small aims.now }
    ensures { result ≡ any_below (length (terms_of body.now)) (outruns (nat_abs own) (stride_at strides.now (terms_of body.now))
        (terms_of body.now) (steps_at readings.entry.kept readings.entry.first.now aims.now (terms_of body.now))) }
{
    let n = body.len() / 4;
    let mut found = false;
    for i in 0..n {
        let longer = outruns(own, body, i, readings, aims, strides);
        found = found | longer;
    }
    found
}
