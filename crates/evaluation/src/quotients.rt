// The quotient of form 8.
ghost use Rattle.std.specs.Prelude.{◌≡◌, ◌+◌, ◌^◌, ◌<◌, pos, nat_abs, ◌≤ℤ◌};
ghost use Rattle.program.specs.Evaluate.{over_up};

// a over d, rounded up: division rounds towards 0.
pub fn over_up(a: i64, d: i64) -> i64
    requires { (pos 1 ≤ℤ d) × (nat_abs a + nat_abs d < 2 ^ 63) }
    ensures { result ≡ over_up d a }
{
    if d == 1 {
        return a;
    }
    if a < 0 { a / d } else { (a + (d - 1)) / d }
}
