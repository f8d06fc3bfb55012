// The variables of a file: variable x is the field of 8 bytes at byte 8 x, whose value has the last 5 of them.
ghost use Rattle.std.specs.Prelude.{◌≡◌, ℕ, ◌+◌, ◌*◌, ◌<◌, ◌≤◌, length};
ghost use Rattle.program.specs.Program.{variable_of, variable_in, variables_at};

use program::Variable;

// The variable in a field's value: kind (1), low (2), high (2).
pub fn variable_of(value: &[u8]) -> Variable
    requires { length value.now ≡ 5 }
    ensures { result ≡ variable_of value.now }
{
    let low = format::signed_at(value, 1);
    let high = format::signed_at(value, 3);
    Variable {
        kind: value[0],
        low,
        high,
    }
}

// Variable x of a file.
pub fn variable(file: &[u8], x: u8) -> Variable
    requires { 8 * x + 8 ≤ length file.now }
    ensures { (n : ℕ) → x < n → result ≡ variable_in (variables_at file.now n) x }
{
    let field = format::wide(x) * 8;
    variable_of(&file[field + 3..field + 8])
}
