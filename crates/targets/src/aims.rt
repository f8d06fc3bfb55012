// The aims: the targets drawn back at first, and the targets in the end.
ghost use Rattle.std.specs.Prelude.{◌≡◌, not, ◌*◌, ◌<◌, ◌≤◌, T, pos, nat_abs, ◌≤ℤ◌, length};
ghost use Rattle.format.specs.Limits.{max_variables, max_number};
ghost use Rattle.program.specs.Program.{variables_at};
ghost use Rattle.program.specs.Evaluable.{Small};
ghost use Rattle.program.specs.Variables.{not_past};
ghost use Rattle.reduct.specs.Filling.{Filled};
ghost use Rattle.targets.specs.Aims.{is_open, drawn_back, later_of, first_aim, first_aims, SameIf};

use format::Format;
use parts::variables;
use program::Variable;
use run::Source;
use steady::strides::stride_by;

// Whether the target of x, which has this value, comes after it, no further than the far end, nor than the stop where lifts stop.
pub fn is_open(x: Variable, cut: bool, stop: i64, value: i64, target: i64) -> bool
    ensures { result ≡ is_open cut x stop value target }
{
    let founded = x.is_founded();
    let after = x.is_before(value, target);
    let past = x.is_before(x.far(), target);
    let stopped = x.is_before(stop, target);
    founded & (after & (!past & (!cut | !stopped)))
}

// The later of two values in the order of x; the first where they are the same.
pub fn later(x: Variable, a: i64, b: i64) -> i64
    ensures { result ≡ later_of x a b }
{
    if x.is_before(a, b) { b } else { a }
}

// The target, which comes after the value, drawn back by the stride, but no further than the value.
fn draw(x: Variable, value: i64, target: i64, stride: i64) -> i64
    requires { (nat_abs value ≤ max_number) × (pos 1 ≤ℤ stride) × (nat_abs stride ≤ max_number) × T (not (not_past x target value)) }
    ensures { result ≡ later_of x value (drawn_back x (nat_abs stride) target) }
{
    if x.is_from_above() {
        return later(x, value, target + stride);
    }
    later(x, value, target - stride)
}

// The first aim of x: an open target drawn back by the stride, else its value.
fn first_aim(x: Variable, cut: bool, stop: i64, value: i64, target: i64, stride: i64) -> i64
    requires { (nat_abs value ≤ max_number) × (pos 1 ≤ℤ stride) × (nat_abs stride ≤ max_number) }
    ensures { result ≡ first_aim cut x (nat_abs stride) stop value target }
{
    if !is_open(x, cut, stop, value, target) {
        return value;
    }
    draw(x, value, target, stride)
}

// The first aim of variable v of a file.
fn aim_at(
    source: &Source,
    v: usize,
    model: &[i64; Format::MAX_VARIABLES],
    target: &[i64; Format::MAX_VARIABLES],
    strides: &[i64; Format::MAX_VARIABLES],
) -> i64
    requires variables_in_bounds { (8 * source.now.counts.variables ≤ length source.now.file.now) × (source.now.counts.variables ≤ max_variables) }
    requires v_lt_variables { (v < source.now.counts.variables) × Small model.now }
    ensures { result ≡ first_aims (variables_at source.now.file.now source.now.counts.variables) source.now.cut strides.now source.now.stops.now model.now target.now v }
{
    let value = model[v];
    let stop = source.stops[v];
    let goal = target[v];
    let number = strides[v];
    let x = variables::variable(source.file, v as u8);
    first_aim(x, source.cut, stop, value, goal, stride_by(number))
}

// The first aims of the variables.
pub fn draw_back(
    source: &Source,
    model: &[i64; Format::MAX_VARIABLES],
    target: &[i64; Format::MAX_VARIABLES],
    strides: &[i64; Format::MAX_VARIABLES],
    aims: &mut [i64; Format::MAX_VARIABLES],
)
    requires variables_in_bounds { (8 * source.now.counts.variables ≤ length source.now.file.now) × (source.now.counts.variables ≤ max_variables) }
    requires aims_len { (length aims.old ≡ max_variables) × Small model.now }
    ensures aims_len_2 { length aims.new ≡ max_variables }
    ensures filled { Filled (first_aims (variables_at source.now.file.now source.now.counts.variables) source.now.cut strides.now source.now.stops.now model.now target.now)
        source.now.counts.variables aims.old aims.new }
{
    for v in 0..source.counts.variables {
        let aim = aim_at(source, v, model, target, strides);
        aims[v] = aim;
    }
}

// Whether the aim of every variable is its target.
pub fn arrived(
    variables: usize,
    aims: &[i64; Format::MAX_VARIABLES],
    target: &[i64; Format::MAX_VARIABLES],
) -> bool
    requires { variables ≤ max_variables }
    ensures { SameIf variables aims.now target.now result }
{
    aims[..variables] == target[..variables]
}
