// A search of a graph, depth first: rows of lent words have for each node those that follow it. What it finds is advice: nothing is asked of it but that it
// ends and stays inside what it is lent.
ghost use Rattle.std.specs.Prelude.{◌≡◌, ◌<◌, ◌≤◌, length};
ghost use Rattle.format.specs.Limits.{max_variables};
ghost use Rattle.words.specs.Bit.{word_bits, word_count};

use format::Format;
use sets::Set;
use words::Words;

// How many nodes are on the way, and how many are done.
#[derive(Drop)]
pub struct Walk {
    pub depth: usize,
    pub done: usize,
}

// A number as a node.
pub fn node(i: usize) -> u8 {
    (i % Format::MAX_VARIABLES) as u8
}

// Puts a node at place i of a list, if there is such a place.
pub fn put(list: &mut [u8; Format::MAX_VARIABLES], i: usize, x: u8)
    requires { length list.old ≡ max_variables }
    ensures { length list.new ≡ max_variables }
{
    if i < Format::MAX_VARIABLES {
        list[i] = x;
    }
}

// The node at place i of a list; 0 where there is no such place.
pub fn get(list: &[u8; Format::MAX_VARIABLES], i: usize) -> u8 {
    if i < Format::MAX_VARIABLES {
        return list[i];
    }
    0
}

// How many zeros stand below the lowest bit of a word.
fn zeros_below(w: u64) -> usize
    ensures { result ≤ word_bits }
{
    u64::trailing_zeros(w) as usize
}

// The word at place i of the rows; none follows past their end.
fn word(rows: &[u64], i: usize) -> u64 {
    if i < rows.len() {
        return rows[i];
    }
    0
}

// The first node that follows x and is still fresh.
fn first_fresh(rows: &[u64], x: u8, fresh: &[u64; Set::WORDS]) -> Option<usize> {
    let from = Set::WORDS * format::wide(x);
    for (t, &left) in fresh.iter().enumerate() {
        let w = word(rows, from + t) & left;
        if w != 0 {
            return Some(Words::BITS * t + zeros_below(w));
        }
    }
    None
}

// One step from the last node on the way: to a fresh node that follows it, or, where there is none, it is done and goes to the list.
fn advance(
    rows: &[u64],
    fresh: &mut [u64; Set::WORDS],
    way: &mut [u8; Format::MAX_VARIABLES],
    list: &mut [u8; Format::MAX_VARIABLES],
    walk: Walk,
) -> Walk
    requires fresh_len { (length fresh.old ≡ word_count) × (length way.old ≡ max_variables) × (length list.old ≡ max_variables) }
    requires depth_nonzero { (0 < walk.depth) × (walk.depth ≤ max_variables) × (walk.done < max_variables) }
    ensures fresh_len_2 { (length fresh.new ≡ word_count) × (length way.new ≡ max_variables) × (length list.new ≡ max_variables) }
    ensures depth_le_max_variables { (result.depth ≤ max_variables) × (result.done ≤ max_variables) }
{
    let depth = walk.depth;
    let done = walk.done;
    let x = get(way, depth - 1);
    let next = first_fresh(rows, x, fresh);
    if depth < Format::MAX_VARIABLES {
        if let Some(i) = next {
            let y = node(i);
            words::drop_bit(fresh, format::wide(y));
            put(way, depth, y);
            return Walk {
                depth: depth + 1,
                done,
            };
        }
    }
    put(list, done, x);
    Walk {
        depth: depth - 1,
        done: done + 1,
    }
}

// From a fresh node x: it and every fresh node that can be reached go to the list, from place `done` on, each after those that follow it. It answers the
// place after the last one.
pub fn walk_from(
    rows: &[u64],
    x: u8,
    fresh: &mut [u64; Set::WORDS],
    way: &mut [u8; Format::MAX_VARIABLES],
    list: &mut [u8; Format::MAX_VARIABLES],
    done: usize,
) -> usize
    requires fresh_len { (length fresh.old ≡ word_count) × (length way.old ≡ max_variables) × (length list.old ≡ max_variables) }
    requires done_le_max_variables { done ≤ max_variables }
    ensures fresh_len_2 { (length fresh.new ≡ word_count) × (length way.new ≡ max_variables) × (length list.new ≡ max_variables) }
    ensures upper_bound { result ≤ max_variables }
{
    if !words::has_bit(fresh, format::wide(x)) {
        return done;
    }
    words::drop_bit(fresh, format::wide(x));
    put(way, 0, x);
    let mut walk = Walk { depth: 1, done };
    for _ in 0..2 * Format::MAX_VARIABLES {
        if walk.depth == 0 {
            return walk.done;
        }
        if walk.done == Format::MAX_VARIABLES {
            return walk.done;
        }
        walk = advance(rows, fresh, way, list, walk);
    }
    walk.done
}
