// What is wrong with the divisor of a rule of form 8: a term that names no variable, with op 3.
ghost use Rattle.std.specs.Prelude.{◌≡◌, ◌/◌, ◌≤◌, length};
ghost use Rattle.program.specs.Program.{terms_of};
ghost use Rattle.program.specs.Refusals.{wrong_divisor, outside_divisor};
ghost use Rattle.faults.specs.Faults.{DivisorFaults};

use crate::Faults;
use format::Format;
use program::Term;

// Whether it names a variable, or has another op.
fn is_wrong_divisor(t: Term) -> bool
    ensures { result ≡ wrong_divisor t }
{
    let x = t.variable;
    let op = t.op;
    match op {
        3 => x != 0,
        0..=2 | 4..=255 => true,
    }
}

// Whether its number lies outside 1..1,000.
fn is_outside_divisor(t: Term) -> bool
    ensures { result ≡ outside_divisor t }
{
    let number = t.number;
    if number < 1 {
        return true;
    }
    Format::MAX_DIVISOR < number
}

// What is wrong with the divisor that stands in a part of a value, if any does.
pub fn divisor_faults(part: &[u8]) -> Faults
    requires { length part.now / 4 ≤ 1 }
    ensures { DivisorFaults (terms_of part.now) result }
{
    if part.len() < 4 {
        return Faults::none();
    }
    let t = parts::terms::term(part, 0);
    Faults {
        form: is_wrong_divisor(t),
        range: is_outside_divisor(t),
        variable: false,
        repeated: false,
        negative: false,
    }
}
