// The terms of a body, 4 bytes each: variable (1), op (1), number (2).
ghost use Rattle.std.specs.Prelude.{◌≡◌, ◌+◌, ◌*◌, ◌≤◌, length, get_or};
ghost use Rattle.format.specs.Numbers.{signed_at};
ghost use Rattle.program.specs.Program.{terms_of, term_in};

use program::Term;

// The term of 4 bytes.
fn whole(bytes: &[u8]) -> Term
    requires { length bytes.now ≡ 4 }
    ensures { result ≡ record { variable = get_or bytes.now 0 0; op = get_or bytes.now 1 0; number = signed_at bytes.now 2 } }
{
    let number = format::signed_at(bytes, 2);
    Term {
        variable: bytes[0],
        op: bytes[1],
        number,
    }
}

// Term i of a body.
pub fn term(body: &[u8], i: usize) -> Term
    requires { 4 * i + 4 ≤ length body.now }
    ensures { result ≡ term_in (terms_of body.now) i }
{
    whole(&body[4 * i..4 * i + 4])
}
