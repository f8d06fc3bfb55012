// The values of the variables, one for each in number order.
ghost use Rattle.std.specs.Prelude.{◌≡◌, ◌*◌, ◌/◌, ◌≤◌, length};
ghost use Rattle.format.specs.Limits.{max_variables};
ghost use Rattle.program.specs.Program.{variables_at};
ghost use Rattle.meaning.specs.Stable.{assigned};
ghost use Rattle.reduct.specs.Filling.{Filled, OutsideIs};
ghost use Rattle.program.specs.Readings.{valued};

use format::Format;
use parts::variables;

// The values of an assignment, two bytes each; those past its end stay.
pub fn load(bytes: &[u8], values: &mut [i64; Format::MAX_VARIABLES])
    requires { (length bytes.now ≤ 2 * max_variables) × (length values.old ≡ max_variables) }
    ensures values_len { length values.new ≡ max_variables }
    ensures filled { Filled (assigned bytes.now) (length bytes.now / 2) values.old values.new }
{
    let n = bytes.len() / 2;
    for v in 0..n {
        let value = format::signed_at(bytes, 2 * v);
        values[v] = value;
    }
}

// The first variable whose value lies outside its range.
pub fn first_outside(
    file: &[u8],
    variables: usize,
    values: &[i64; Format::MAX_VARIABLES],
) -> Option<usize>
    requires { (8 * variables ≤ length file.now) × (variables ≤ max_variables) }
    ensures { OutsideIs (variables_at file.now variables) (valued values.now) variables result }
{
    for v in 0..variables {
        let value = values[v];
        let x = variables::variable(file, v as u8);
        if !x.contains(value) {
            return Some(v);
        }
    }
    None
}
