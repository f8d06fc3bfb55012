// The rules that raised the variables of a component last.
ghost use Rattle.std.specs.Prelude.{◌≡◌, ◌≤◌, ◌<◌, length};
ghost use Rattle.format.specs.Limits.{max_variables};

use format::Format;
use sequence::noted;
use sequence::walk::get;
use sets::Set;

// Rule i, which raised v last, joins the line after the first `count` rules, if there is room. It answers how many there are now.
fn join(
    line: &mut [usize; Format::MAX_VARIABLES],
    heads: &mut [u8; Format::MAX_VARIABLES],
    count: usize,
    i: usize,
    v: u8,
) -> usize
    requires { (length line.old ≡ max_variables) × (length heads.old ≡ max_variables) × (count ≤ max_variables) }
    ensures { (length line.new ≡ max_variables) × (length heads.new ≡ max_variables) × (result ≤ max_variables) }
{
    if count < Format::MAX_VARIABLES {
        line[count] = i;
        heads[count] = v;
        return count + 1;
    }
    count
}

// Variable x joins it, if it is risen.
fn join_risen(
    by: &[u16; Format::MAX_VARIABLES],
    risen: &[u64; Set::WORDS],
    line: &mut [usize; Format::MAX_VARIABLES],
    heads: &mut [u8; Format::MAX_VARIABLES],
    count: usize,
    x: u8,
) -> usize
    requires { (length line.old ≡ max_variables) × (length heads.old ≡ max_variables) × (count ≤ max_variables) }
    ensures { (length line.new ≡ max_variables) × (length heads.new ≡ max_variables) × (result ≤ max_variables) }
{
    let v = format::wide(x);
    if !words::has_bit(risen, v) {
        return count;
    }
    join(line, heads, count, noted(by, v), x)
}

// The line of the risen variables at the places from `from` to `to` of the list, in its order, with their rules: `by` has the one that raised each last. It
// answers how many there are.
pub fn gather(
    list: &[u8; Format::MAX_VARIABLES],
    from: usize,
    to: usize,
    by: &[u16; Format::MAX_VARIABLES],
    risen: &[u64; Set::WORDS],
    line: &mut [usize; Format::MAX_VARIABLES],
    heads: &mut [u8; Format::MAX_VARIABLES],
) -> usize
    requires { (length line.old ≡ max_variables) × (length heads.old ≡ max_variables) }
    ensures { (length line.new ≡ max_variables) × (length heads.new ≡ max_variables) × (result ≤ max_variables) }
{
    let mut count = 0;
    for k in from..to {
        count = join_risen(by, risen, line, heads, count, get(list, k));
    }
    count
}
