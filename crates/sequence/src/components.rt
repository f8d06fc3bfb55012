// The components of a graph, each after those from which it is reached, and each with its nodes in the order of a search.
ghost use Rattle.std.specs.Prelude.{◌≡◌, ◌+◌, ◌<◌, ◌≤◌, length};
ghost use Rattle.format.specs.Limits.{max_variables};
ghost use Rattle.words.specs.Bit.{word_count};

use crate::walk::{get, node, walk_from};
use format::Format;
use sets::Set;

// Puts a number at place i of a list, if there is such a place.
pub fn note(list: &mut [u16; Format::MAX_VARIABLES], i: usize, n: usize)
    requires { length list.old ≡ max_variables }
    ensures { length list.new ≡ max_variables }
{
    if i < Format::MAX_VARIABLES {
        list[i] = (n % 65536) as u16;
    }
}

// All n nodes, each after those that follow it as far as they are not on the way to it.
pub fn finish(rows: &[u64], n: usize, list: &mut [u8; Format::MAX_VARIABLES])
    requires { (n ≤ max_variables) × (length list.old ≡ max_variables) }
    ensures { length list.new ≡ max_variables }
{
    let mut fresh = [0u64; Set::WORDS];
    let mut way = [0u8; Format::MAX_VARIABLES];
    let mut done = 0;
    words::fill_bits(&mut fresh, n);
    for v in 0..n {
        done = walk_from(rows, node(v), &mut fresh, &mut way, list, done);
    }
}

// How many nodes have their component, and how many components there are.
#[derive(Drop)]
pub struct Parts {
    pub done: usize,
    pub count: usize,
}

// The component of x, if it is not found yet, goes to the list.
fn part_of(
    back: &[u64],
    x: u8,
    fresh: &mut [u64; Set::WORDS],
    list: &mut [u8; Format::MAX_VARIABLES],
    ends: &mut [u16; Format::MAX_VARIABLES],
    parts: Parts,
) -> Parts
    requires fresh_len { (length fresh.old ≡ word_count) × (length list.old ≡ max_variables) × (length ends.old ≡ max_variables) }
    requires done_le_max_variables { (parts.done ≤ max_variables) × (parts.count < max_variables) }
    ensures fresh_len_2 { (length fresh.new ≡ word_count) × (length list.new ≡ max_variables) × (length ends.new ≡ max_variables) }
    ensures done_le_max_variables_2 { (result.done ≤ max_variables) × (result.count ≤ parts.count + 1) }
{
    let mut way = [0u8; Format::MAX_VARIABLES];
    let done = parts.done;
    let count = parts.count;
    let next = walk_from(back, x, fresh, &mut way, list, done);
    if next == done {
        return parts;
    }
    note(ends, count, next);
    Parts {
        done: next,
        count: count + 1,
    }
}

// The components, by the rows of the edges turned round and by the nodes as they were finished. The list has their nodes, and `ends` the place after the last one
// of each. It answers how many components there are.
pub fn collect(
    back: &[u64],
    finished: &[u8; Format::MAX_VARIABLES],
    n: usize,
    list: &mut [u8; Format::MAX_VARIABLES],
    ends: &mut [u16; Format::MAX_VARIABLES],
) -> usize
    requires { (n ≤ max_variables) × (length list.old ≡ max_variables) × (length ends.old ≡ max_variables) }
    ensures list_len { (length list.new ≡ max_variables) × (length ends.new ≡ max_variables) }
    ensures upper_bound { result ≤ max_variables }
{
    let mut fresh = [0u64; Set::WORDS];
    let mut parts = Parts { done: 0, count: 0 };
    words::fill_bits(&mut fresh, n);
    for &x in finished[..n].iter().rev() {
        parts = part_of(back, x, &mut fresh, list, ends, parts);
    }
    parts.count
}
