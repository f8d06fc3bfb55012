// The values on both sides at the start, and the values reached.
ghost use Rattle.std.specs.Prelude.{◌≡◌, not, ◌*◌, ◌≤◌, length, set};
ghost use Rattle.format.specs.Limits.{max_variables};
ghost use Rattle.program.specs.Program.{variables_at};
ghost use Rattle.program.specs.Readings.{valued};
ghost use Rattle.program.specs.Variables.{started};
ghost use Rattle.reduct.specs.Filling.{Filled};
ghost use Rattle.sided.specs.Sides.{sides_length, side_place};
ghost use Rattle.sided.specs.Reached.{own_side, risen};
ghost use Rattle.ascent.specs.Ascending.{SidesStart};

use format::Format;
use parts::variables;
use program::Variable;
use sided::{Sides, read, write};

// Whether the value that x has reached stands where falling positions read it.
fn own_side(x: Variable) -> bool
    ensures { result ≡ own_side x }
{
    x.kind != 1
}

// Variable v, whose record is x, at its starting end, a standard one as assigned, with the other value beside it.
fn start_one(v: u8, x: Variable, given: i64, other: i64, sides: &mut [i64; Sides::LENGTH])
    requires { length sides.old ≡ sides_length }
    ensures sides_len { length sides.new ≡ sides_length }
    ensures sides_after { sides.new ≡ set (set sides.old (side_place (own_side x) v) (started x given)) (side_place (not (own_side x)) v) other }
{
    let side = own_side(x);
    let from = x.started(given);
    write(sides, side, v, from);
    write(sides, !side, v, other);
}

// The first n variables; those past the last one stay.
pub fn start_sides(
    file: &[u8],
    n: usize,
    assigned: &[i64; Format::MAX_VARIABLES],
    others: &[i64; Format::MAX_VARIABLES],
    sides: &mut [i64; Sides::LENGTH],
)
    requires n_in_bounds { (8 * n ≤ length file.now) × (n ≤ max_variables) }
    requires sides_len { length sides.old ≡ sides_length }
    ensures sides_len_2 { length sides.new ≡ sides_length }
    ensures sides_start { SidesStart (variables_at file.now n) n (valued assigned.now) (valued others.now) sides.old sides.new }
{
    for v in 0..n {
        let x = variables::variable(file, v as u8);
        let given = assigned[v];
        let other = others[v];
        start_one(v as u8, x, given, other, sides);
    }
}

// The values that the first n variables have reached; those past the last one stay.
pub fn values_of(
    file: &[u8],
    n: usize,
    sides: &[i64; Sides::LENGTH],
    model: &mut [i64; Format::MAX_VARIABLES],
)
    requires n_in_bounds { (8 * n ≤ length file.now) × (n ≤ max_variables) }
    requires model_len { length model.old ≡ max_variables }
    ensures model_len_2 { length model.new ≡ max_variables }
    ensures filled { Filled (risen (variables_at file.now n) sides.now) n model.old model.new }
{
    for v in 0..n {
        let x = variables::variable(file, v as u8);
        let value = read(sides, own_side(x), v as u8);
        model[v] = value;
    }
}
