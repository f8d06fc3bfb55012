// Whether a constraint holds when its variables have these values.
ghost use Rattle.std.specs.Prelude.{◌≡◌, ◌≤◌, length};
ghost use Rattle.program.specs.Program.{constraint_of, term_in};
ghost use Rattle.program.specs.Evaluate.{satisfied};
ghost use Rattle.program.specs.Evaluable.{Small, Satisfiable};
ghost use Rattle.program.specs.Readings.{valued};
ghost use Rattle.parts.specs.Values.{constraint_header};

use bodies::Readings;
use format::Format;
use parts::constraints;

// The constraint in a field's value.
pub fn satisfied(value: &[u8], values: &[i64; Format::MAX_VARIABLES]) -> bool
    requires satisfiable { Satisfiable (constraint_of value.now) }
    requires constraint_header_in_bounds { constraint_header ≤ length value.now }
    requires small { Small values.now }
    ensures { result ≡ satisfied (constraint_of value.now) (λ j. valued values.now (term_in (constraint_of value.now).terms j).variable) }
{
    let header = constraints::header(value);
    let body = constraints::body(value);
    let readings = Readings {
        kept: 0,
        first: values,
        second: values,
    };
    let form = header.form;
    match form {
        1 => bodies::sum(header.c, body, readings) <= 0,
        2 => bodies::any_holds(body, readings),
        0 | 3..=255 => false,
    }
}
