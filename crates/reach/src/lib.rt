// A set for each variable, as rows of lent words, and what is reached over edges, round by round.
#![tactic(auto)]

ghost use Rattle.std.specs.Prelude.{◌≡◌, true, ◌&&◌, ℕ, ◌+◌, ◌*◌, ◌<◌, ◌≤◌, eqb, length};
ghost use Rattle.format.specs.Limits.{max_variables};
ghost use Rattle.words.specs.Bit.{word_count, has, one_if};
ghost use Rattle.reach.specs.Rows.{rows_length, row_has, Marked, MarkedWhere, Joined};
ghost use Rattle.reach.specs.Stepping.{Lent, TakenIn, Steps};
ghost use Rattle.reach.specs.Closing.{Closed};
ghost use Rattle.walks.specs.Walk.{Round, Rounds};

use format::Format;
use sets::Set;
use words::{Words, drop_bit};

#[derive(Drop)]
pub struct Rows {}

impl Rows {
    // The words of all rows.
    pub const LENGTH: usize = Format::MAX_VARIABLES * Set::WORDS;

    // The constant of the code is that of the specification.
    pub fn quoted()
        ensures { Rows.LENGTH ≡ rows_length }
    {}
}

// Whether row i has v.
pub fn row_has(rows: &[u64], i: usize, v: usize) -> bool
    requires i_lt_max_variables { (i < max_variables) × (v < max_variables) }
    requires i_in_bounds { word_count * (i + 1) ≤ length rows.now }
    ensures { result ≡ row_has rows.now i v }
{
    let w = rows[Set::WORDS * i + v / Words::BITS];
    (w >> (v % Words::BITS)) % 2 == 1
}

// Row i takes in v.
pub fn mark(rows: &mut [u64; Rows::LENGTH], i: usize, v: usize)
    requires i_lt_max_variables { (i < max_variables) × (v < max_variables) }
    requires rows_len { length rows.old ≡ rows_length }
    ensures rows_len_2 { length rows.new ≡ rows_length }
    ensures marked { Marked (row_has rows.old) (row_has rows.new) i v }
{
    let at = Set::WORDS * i + v / Words::BITS;
    rows[at] = rows[at] | (1u64 << (v % Words::BITS));
}

// A test, as a number.
fn as_number(test: bool) -> u64
    ensures { result ≡ one_if test }
{
    if test { 1 } else { 0 }
}

// Row i takes in v where the test says so, without a branch.
pub fn mark_where(rows: &mut [u64; Rows::LENGTH], i: usize, v: usize, test: bool)
    requires i_lt_max_variables { (i < max_variables) × (v < max_variables) }
    requires rows_len { length rows.old ≡ rows_length }
    ensures rows_len_2 { length rows.new ≡ rows_length }
    ensures marked_where { MarkedWhere test (row_has rows.old) (row_has rows.new) i v }
{
    let one = as_number(test);
    let at = Set::WORDS * i + v / Words::BITS;
    rows[at] = rows[at] | (one << (v % Words::BITS));
}

// Row i takes in row k.
fn join(rows: &mut [u64], i: usize, k: usize)
    requires i_lt_max_variables { (i < max_variables) × (k < max_variables) }
    requires i_in_bounds { (word_count * (i + 1) ≤ length rows.old) × (word_count * (k + 1) ≤ length rows.old) }
    ensures rows_len_unchanged { length rows.new ≡ length rows.old }
    ensures joined { Joined (row_has rows.old) (row_has rows.new) i k }
{
    let p = Set::WORDS * i;
    let q = Set::WORDS * k;
    for t in 0..Set::WORDS {
        let w = rows[q + t];
        rows[p + t] = rows[p + t] | w;
    }
}

// Each row of n variables that has k takes in row k.
fn round(rows: &mut [u64], k: usize, n: usize)
    requires { Lent rows.old n × (k < n) }
    ensures { TakenIn rows.old rows.new n k }
{
    for i in 0..n {
        if row_has(rows, i, k) {
            join(rows, i, k);
        }
    }
}

// Variable k's round: if the sets were those after the round of the variable before, or the edges for variable 0, then each set now holds exactly
// those reached over one edge or more with every stop between at most k. It answers whether k is one of so many variables that have sets.
pub fn step(sets: &mut [u64], variables: usize, k: usize) -> bool
    ensures steps { Steps sets.old variables k result sets.new }
    ensures round { result ≡ true → Round (row_has sets.old) (row_has sets.new) variables k }
{
    if Format::MAX_VARIABLES < variables {
        return false;
    }
    if sets.len() < Set::WORDS * variables {
        return false;
    }
    if variables <= k {
        return false;
    }
    round(sets, k, variables);
    true
}

// What so many variables reach over one edge or more: a step for each of them, in ascending order.
pub fn close(sets: &mut [u64], variables: usize)
    requires { Lent sets.old variables }
    ensures sets_len_unchanged { length sets.new ≡ length sets.old }
    ensures rounds { Rounds (row_has sets.old) (row_has sets.new) variables }
{
    for k in 0..variables {
        step(sets, variables, k);
    }
}

// What row x has of the variables that are left.
fn row_left(rows: &[u64], x: usize, left: &[u64; Set::WORDS]) -> Set
    requires x_lt_max_variables { (x < max_variables) × (length left.now ≡ word_count) }
    requires x_in_bounds { word_count * (x + 1) ≤ length rows.now }
    ensures { (j : ℕ) → has result.words j ≡ (row_has rows.now x j && has left.now j) }
{
    let p = Set::WORDS * x;
    let a = rows[p] & left[0];
    let b = rows[p + 1] & left[1];
    let c = rows[p + 2] & left[2];
    let d = rows[p + 3] & left[3];
    Set {
        words: [a, b, c, d],
    }
}

// What x reaches over one edge or more: its row takes in the row of each variable that it has, until none of them is left.
pub fn close_row(sets: &mut [u64], variables: usize, x: usize)
    requires { Lent sets.old variables × (x < variables) }
    ensures sets_len_unchanged { length sets.new ≡ length sets.old }
    ensures closed { Closed (row_has sets.old) (row_has sets.new) variables (λ a. eqb a x) }
{
    let mut left = [u64::MAX; Set::WORDS];
    loop {
        let Some(m) = row_left(sets, x, &left).next(0) else {
            return;
        };
        if variables <= m {
            return;
        }
        drop_bit(&mut left, m);
        join(sets, x, m);
    }
}

// What each variable of the set reaches.
pub fn close_rows(sets: &mut [u64], variables: usize, of: Set)
    requires { Lent sets.old variables × ((v : ℕ) → has of.words v ≡ true → v < variables) }
    ensures sets_len_unchanged { length sets.new ≡ length sets.old }
    ensures closed { Closed (row_has sets.old) (row_has sets.new) variables (has of.words) }
{
    let mut from = 0;
    loop {
        let Some(x) = of.next(from) else {
            return;
        };
        close_row(sets, variables, x);
        from = x + 1;
    }
}
