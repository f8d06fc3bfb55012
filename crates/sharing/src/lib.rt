// What sets say of components: whether two variables share one, and the first variable of each.
#![tactic(auto)]

ghost use Rattle.std.specs.Prelude.{◌≡◌, ◌+◌, ◌*◌, ◌<◌, ◌≤◌, length};
ghost use Rattle.format.specs.Limits.{max_variables};
ghost use Rattle.words.specs.Bit.{word_count};
ghost use Rattle.reach.specs.Rows.{row_has};
ghost use Rattle.reach.specs.Stepping.{Lent};
ghost use Rattle.sharing.specs.Sharing.{share_in, FirstSharing, Named, Names};

use format::Format;
use reach::row_has;
use sets::Set;

// Whether two of so many variables are the same or each set has the other's variable.
pub fn share(sets: &[u64], x: usize, y: usize) -> bool
    requires x_lt_max_variables { (x < max_variables) × (y < max_variables) }
    requires x_in_bounds { (word_count * (x + 1) ≤ length sets.now) × (word_count * (y + 1) ≤ length sets.now) }
    ensures { result ≡ share_in (row_has sets.now) x y }
{
    if x == y {
        return true;
    }
    let there = row_has(sets, x, y);
    let back = row_has(sets, y, x);
    there & back
}

// The first variable that shares x's component.
fn first_sharing(sets: &[u64], x: usize) -> usize
    requires { (x < max_variables) × (word_count * (x + 1) ≤ length sets.now) }
    ensures { (result ≤ x) × FirstSharing (row_has sets.now) x result }
{
    for y in 0..x {
        if share(sets, x, y) {
            return y;
        }
    }
    x
}

// A byte for each of so many variables.
fn name_each(sets: &[u64], variables: usize, buffer: &mut [u8])
    requires { Lent sets.now variables × (variables ≤ length buffer.old) }
    ensures { Named (row_has sets.now) variables buffer.old buffer.new }
{
    for x in 0..variables {
        let y = first_sharing(sets, x);
        buffer[x] = y as u8;
    }
}

// The components that the sets say: byte x of the buffer is the first variable of x's. It answers whether there are so many sets, and a byte for
// each.
pub fn components(sets: &[u64], variables: usize, buffer: &mut [u8]) -> bool
    ensures { Names sets.now variables buffer.old result buffer.new }
{
    if Format::MAX_VARIABLES < variables {
        return false;
    }
    if sets.len() < Set::WORDS * variables {
        return false;
    }
    if buffer.len() < variables {
        return false;
    }
    name_each(sets, variables, buffer);
    true
}
