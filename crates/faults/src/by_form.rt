// What may stand in a term, by the form of its rule and its position in the body.
ghost use Rattle.std.specs.Prelude.{◌≡◌, ◌*◌, ◌+◌, ◌≤◌, eqb, nat_abs, length};
ghost use Rattle.program.specs.Program.{terms_of, variables_at};
ghost use Rattle.program.specs.Refusals.{literal_position, wrong_op, must_be_zero, wrong_term, outside_term, repeated_term, negative_term};

use program::Term;

pub fn is_zero(v: i64) -> bool
    ensures { result ≡ eqb (nat_abs v) 0 }
{
    v == 0
}

// Whether a literal stands at position i of a body of this form.
pub fn is_literal_position(form: u8, i: usize) -> bool
    ensures { result ≡ literal_position form i }
{
    match form {
        6 => true,
        7 => i != 0,
        0..=5 | 8..=255 => false,
    }
}

// Whether an op may not stand at position i of a body of this form.
pub fn is_wrong_op(form: u8, i: usize, op: u8) -> bool
    ensures { result ≡ wrong_op form i op }
{
    let literal = is_literal_position(form, i);
    match op {
        0 => literal,
        1 | 2 => !literal,
        3..=255 => true,
    }
}

// Whether the number at position i of a body of this form must be 0.
pub fn is_zero_position(form: u8, i: usize) -> bool
    ensures { result ≡ must_be_zero form i }
{
    if is_literal_position(form, i) {
        return false;
    }
    form != 1
}

// Whether a term's op is wrong, or its number must be 0 and is not.
pub fn is_wrong_term(t: Term, form: u8, i: usize) -> bool
    ensures { result ≡ wrong_term form i t }
{
    if is_wrong_op(form, i, t.op) {
        return true;
    }
    if is_zero_position(form, i) {
        return !is_zero(t.number);
    }
    false
}

// Whether a literal's number or a coefficient is outside its range.
pub fn is_outside_term(t: Term, form: u8, i: usize) -> bool
    ensures { result ≡ outside_term form i t }
{
    let number = t.number;
    if is_literal_position(form, i) {
        return format::is_number_beyond(number);
    }
    if form != 1 {
        return false;
    }
    if is_zero(number) {
        return true;
    }
    format::is_coefficient_beyond(number)
}

// Whether the variable of term i stands at an earlier position of the body.
pub fn is_repeated(body: &[u8], i: usize) -> bool
    requires { 4 * i + 4 ≤ length body.now }
    ensures { result ≡ repeated_term (terms_of body.now) i }
{
    let x = body[4 * i];
    for j in 0..i {
        if body[4 * j] == x {
            return true;
        }
    }
    false
}

// Whether the term stands in a product and its variable's low is below 0.
pub fn is_negative(file: &[u8], variables: usize, form: u8, t: Term) -> bool
    requires { 8 * variables ≤ length file.now }
    ensures { result ≡ negative_term (variables_at file.now variables) form t }
{
    if form != 4 {
        return false;
    }
    let x = t.variable;
    if format::wide(x) < variables {
        let v = parts::variables::variable(file, x);
        v.low < 0
    } else {
        false
    }
}
