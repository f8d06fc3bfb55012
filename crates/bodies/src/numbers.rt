// Arithmetic of the values that rules give.
ghost use Rattle.std.specs.Prelude.{◌≡◌, ◌+◌, ◌*◌, ◌^◌, ◌<◌, pos, nat_abs, ◌+ℤ◌, ◌*ℤ◌};
ghost use Rattle.program.specs.Evaluate.{holds};
ghost use Rattle.bodies.specs.Readings.{extreme};

use program::Term;

pub fn plus(a: i64, b: i64) -> i64
    requires { nat_abs a + nat_abs b < 2 ^ 63 }
    ensures { result ≡ a +ℤ b }
{
    a + b
}

pub fn times(a: i64, b: i64) -> i64
    requires { nat_abs a * nat_abs b < 2 ^ 63 }
    ensures { result ≡ a *ℤ b }
{
    a * b
}

// The larger of two where `most` says so, else the smaller.
pub fn extreme(most: bool, a: i64, b: i64) -> i64
    ensures { result ≡ extreme most a b }
{
    let above = most & (a < b);
    let below = !most & (b < a);
    if above | below { b } else { a }
}

// The absolute value.
pub fn size(a: i64) -> i64
    requires { nat_abs a < 2 ^ 63 }
    ensures { result ≡ pos (nat_abs a) }
{
    if a < 0 { 0 - a } else { a }
}

// Whether a literal holds at a value; a plain term asks nothing.
pub fn holds(t: Term, value: i64) -> bool
    ensures { result ≡ holds t value }
{
    let below = value < t.number;
    let from = (t.op != 1) | !below;
    let to = (t.op != 2) | below;
    from & to
}
