// Numbers within the format's range, and lists of them.
ghost use Rattle.std.specs.Prelude.{◌≡◌, ◌≤◌, ◌<◌, nat_abs, length};
ghost use Rattle.format.specs.Limits.{max_variables, max_number};
ghost use Rattle.program.specs.Evaluable.{Small};

use evaluation::quotients::over_up;
use format::Format;
use sequence::listed;

// The number of the format's range that is next to a.
pub fn near(a: i64) -> i64
    ensures { nat_abs result ≤ max_number }
{
    if a > Format::MAX_NUMBER {
        return Format::MAX_NUMBER;
    }
    if a < 0 - Format::MAX_NUMBER {
        return 0 - Format::MAX_NUMBER;
    }
    a
}

// The value of v becomes the number next to a.
pub fn put(values: &mut [i64; Format::MAX_VARIABLES], v: usize, a: i64)
    requires { (length values.old ≡ max_variables) × (v < max_variables) × Small values.old }
    ensures { (length values.new ≡ max_variables) × Small values.new }
{
    let n = near(a);
    values[v] = n;
}

// The values of n variables become those of another list.
pub fn copy(
    values: &mut [i64; Format::MAX_VARIABLES],
    from: &[i64; Format::MAX_VARIABLES],
    n: usize,
)
    requires { (length values.old ≡ max_variables) × Small values.old }
    ensures { (length values.new ≡ max_variables) × Small values.new }
{
    let many = listed(n);
    for v in 0..many {
        put(values, v, from[v]);
    }
}

// Twice the number next to n.
pub fn double(n: i64) -> i64 {
    let a = near(n);
    a + a
}

// The product of the numbers next to a and b.
pub fn times(a: i64, b: i64) -> i64 {
    let m = near(a);
    let n = near(b);
    m * n
}

// Sums of bodies are no larger.
#[derive(Drop)]
pub struct Sums {}

impl Sums {
    pub const LARGEST: i64 = 1_000_000_000;
}

// The number of the range of sums that is next to a.
fn within(a: i64) -> i64
    ensures { nat_abs result ≤ 1000000000 }
{
    if a > Sums::LARGEST {
        return Sums::LARGEST;
    }
    if a < 0 - Sums::LARGEST {
        return 0 - Sums::LARGEST;
    }
    a
}

// The difference of two sums.
pub fn minus(a: i64, b: i64) -> i64 {
    let m = within(a);
    let n = within(b);
    m - n
}

// A sum over d, rounded up; the sum itself where d is no divisor.
pub fn over(a: i64, d: i64) -> i64 {
    let m = within(a);
    let n = within(d);
    if n < 1 {
        return m;
    }
    over_up(m, n)
}
