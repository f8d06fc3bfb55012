// Text appended to a lent output. `at` is how many bytes the text has so far; each function answers how many it then has. A byte that the output
// has no room for is left out, and counted all the same. The bounds on `at` keep the sums from wrapping; each function leaves room for its callees.
#![tactic(auto)]

ghost use Rattle.std.specs.Prelude.{[], ◌∷◌, ◌+◌, ◌≤◌, nat_abs, length};
ghost use Rattle.text.specs.Decimal.{decimal, number};
ghost use Rattle.text.specs.Output.{Appends};

// One byte.
pub fn put(output: &mut [u8], at: usize, byte: u8) -> usize
    requires { at ≤ 1000000 }
    ensures { Appends (byte ∷ []) at result output.old output.new }
{
    if at < output.len() {
        output[at] = byte;
        return at + 1;
    }
    at + 1
}

// The bytes of a word.
pub fn put_word(output: &mut [u8], at: usize, word: &[u8]) -> usize
    requires { (at ≤ 500000) × (length word.now ≤ 100) }
    ensures { Appends word.now at result output.old output.new }
{
    let mut next = at;
    for &byte in word {
        next = put(output, next, byte);
    }
    next
}

// A number in base ten.
pub fn put_decimal(output: &mut [u8], at: usize, n: usize) -> usize
    requires { at ≤ 500000 }
    ensures appends { Appends (decimal n) at result output.old output.new }
    ensures upper_bound { result ≤ at + 20 }
{
    if n < 10 {
        return put(output, at, b'0' + n as u8);
    }
    let next = put_decimal(output, at, n / 10);
    put(output, next, b'0' + (n % 10) as u8)
}

// A number in base ten, with its sign where it is negative.
pub fn put_number(output: &mut [u8], at: usize, z: i64) -> usize
    requires { (at ≤ 400000) × (nat_abs z ≤ 32768) }
    ensures appends { Appends (number z) at result output.old output.new }
    ensures upper_bound { result ≤ at + 6 }
{
    if z < 0 {
        let next = put(output, at, b'-');
        return put_decimal(output, next, (0 - z) as usize);
    }
    put_decimal(output, at, z as usize)
}
