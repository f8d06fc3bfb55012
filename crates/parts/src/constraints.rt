// The constraint in a field's value: form (1), c (2), then its body.
ghost use Rattle.std.specs.Prelude.{◌≡◌, ◌≤◌, length};
ghost use Rattle.program.specs.Program.{constraint_of, constraint_body};
ghost use Rattle.parts.specs.Values.{constraint_header, Handed};

// What stands before the body.
#[derive(Drop)]
pub struct ConstraintHeader {
    pub form: u8,
    pub c: i64,
}

pub fn header(value: &[u8]) -> ConstraintHeader
    requires { constraint_header ≤ length value.now }
    ensures { (result.form ≡ (constraint_of value.now).form) × (result.c ≡ (constraint_of value.now).c) }
{
    let c = format::signed_at(value, 1);
    ConstraintHeader { form: value[0], c }
}

// The body, as that stretch of the value.
pub fn body(value: &[u8]) -> &[u8]
    requires { constraint_header ≤ length value.now }
    ensures { Handed (constraint_body value.now) result.now }
{
    &value[3..]
}
