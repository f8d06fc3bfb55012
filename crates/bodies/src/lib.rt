// A body read in two valuations.
#![tactic(auto)]

ghost use Rattle.std.specs.Prelude.{◌≡◌, ◌+◌, ◌-◌, ◌*◌, ◌/◌, ◌<◌, ◌≤◌, length, nat_abs, ◌+ℤ◌, ◌*ℤ◌};
ghost use Rattle.format.specs.Limits.{max_terms, max_number, max_coefficient};
ghost use Rattle.program.specs.Tables.{any_below};
ghost use Rattle.program.specs.Program.{terms_of, term_in};
ghost use Rattle.program.specs.Evaluate.{sum_below, pick_to, largest_to, smallest_to, holds, all_hold};
ghost use Rattle.bodies.specs.Readings.{read_at, reading_of, extreme, weighted};
ghost use Rattle.program.specs.Evaluable.{Small, Coefficients};

use format::Format;

pub mod numbers;

// Position i of a body is read in `first` where bit i of `kept` is set, and in `second` else.
#[derive(Clone, Copy)]
pub struct Readings<'a> {
    pub kept: u32,
    pub first: &'a [i64; Format::MAX_VARIABLES],
    pub second: &'a [i64; Format::MAX_VARIABLES],
}

impl Readings<'_> {
    // The value of variable x at position i.
    fn read(self, x: u8, i: usize) -> i64
        requires { i < max_terms }
        ensures { result ≡ read_at self.entry.kept self.entry.first.now self.entry.second.now i x }
    {
        let v = format::wide(x);
        if (self.kept >> i) % 2 == 1 {
            self.first[v]
        } else {
            self.second[v]
        }
    }

    // The value at position i of a body.
    pub fn read_position(self, body: &[u8], i: usize) -> i64
        requires { (4 * i + 4 ≤ length body.now) × (i < max_terms) }
        ensures { result ≡ reading_of self.entry.kept self.entry.first.now self.entry.second.now (terms_of body.now) i }
    {
        let term = parts::terms::term(body, i);
        self.read(term.variable, i)
    }
}

// What term i adds to a sum.
fn weigh(body: &[u8], i: usize, readings: Readings) -> i64
    requires i_in_bounds { (4 * i + 4 ≤ length body.now) × (i < max_terms) }
    requires i_bound { nat_abs (term_in (terms_of body.now) i).number ≤ max_coefficient }
    requires small { Small readings.first.now × Small readings.second.now }
    ensures { result ≡ weighted (terms_of body.now)
        (reading_of readings.entry.kept readings.entry.first.now readings.entry.second.now (terms_of body.now)) i }
{
    let term = parts::terms::term(body, i);
    numbers::times(term.number, readings.read(term.variable, i))
}

// Whether the literal at position i holds.
fn is_met(body: &[u8], i: usize, readings: Readings) -> bool
    requires { (4 * i + 4 ≤ length body.now) × (i < max_terms) }
    ensures { result ≡ holds (term_in (terms_of body.now) i)
        (reading_of readings.entry.kept readings.entry.first.now readings.entry.second.now (terms_of body.now) i) }
{
    let term = parts::terms::term(body, i);
    numbers::holds(term, readings.read(term.variable, i))
}

// c and, for each term, its number times its value.
pub fn sum(c: i64, body: &[u8], readings: Readings) -> i64
    requires c_bound { (nat_abs c ≤ max_number) × (length body.now / 4 ≤ max_terms) }
    requires coefficients { Coefficients (terms_of body.now) }
    requires small { Small readings.first.now × Small readings.second.now }
    ensures { result ≡ c +ℤ sum_below (weighted (terms_of body.now)
        (reading_of readings.entry.kept readings.entry.first.now readings.entry.second.now (terms_of body.now))) (length (terms_of body.now)) }
{
    let terms = body.len() / 4;
    let mut total: i64 = 0;
    for i in 0..terms {
        total = numbers::plus(total, weigh(body, i, readings));
    }
    numbers::plus(c, total)
}

// The largest value of a body that has a term where `most` says so, else the smallest.
fn extreme(most: bool, body: &[u8], readings: Readings) -> i64
    requires { (4 ≤ length body.now) × (length body.now / 4 ≤ max_terms) }
    ensures { result ≡ pick_to (extreme most)
        (reading_of readings.entry.kept readings.entry.first.now readings.entry.second.now (terms_of body.now)) (length (terms_of body.now) - 1) }
{
    let n = body.len() / 4;
    let mut found = readings.read_position(body, 0);
    for i in 1..n {
        found = numbers::extreme(most, found, readings.read_position(body, i));
    }
    found
}

// The largest value of a body that has a term.
pub fn largest(body: &[u8], readings: Readings) -> i64
    requires { (4 ≤ length body.now) × (length body.now / 4 ≤ max_terms) }
    ensures { result ≡ largest_to
        (reading_of readings.entry.kept readings.entry.first.now readings.entry.second.now (terms_of body.now)) (length (terms_of body.now) - 1) }
{
    extreme(true, body, readings)
}

// The smallest value of a body that has a term.
pub fn smallest(body: &[u8], readings: Readings) -> i64
    requires { (4 ≤ length body.now) × (length body.now / 4 ≤ max_terms) }
    ensures { result ≡ smallest_to
        (reading_of readings.entry.kept readings.entry.first.now readings.entry.second.now (terms_of body.now)) (length (terms_of body.now) - 1) }
{
    extreme(false, body, readings)
}

// The first value times the second.
pub fn product(body: &[u8], readings: Readings) -> i64
    requires in_bounds { 8 ≤ length body.now }
    requires small { Small readings.first.now × Small readings.second.now }
    ensures { result ≡ reading_of readings.entry.kept readings.entry.first.now readings.entry.second.now (terms_of body.now) 0
        *ℤ reading_of readings.entry.kept readings.entry.first.now readings.entry.second.now (terms_of body.now) 1 }
{
    numbers::times(
        readings.read_position(body, 0),
        readings.read_position(body, 1),
    )
}

// Whether every literal of a body holds.
pub fn all_hold(body: &[u8], readings: Readings) -> bool
    requires { length body.now / 4 ≤ max_terms }
    ensures { result ≡ all_hold (terms_of body.now)
        (reading_of readings.entry.kept readings.entry.first.now readings.entry.second.now (terms_of body.now)) (length (terms_of body.now)) }
{
    let n = body.len() / 4;
    for i in 0..n {
        if !is_met(body, i, readings) {
            return false;
        }
    }
    true
}

// Whether some literal of a body holds.
pub fn any_holds(body: &[u8], readings: Readings) -> bool
    requires { length body.now / 4 ≤ max_terms }
    ensures { result ≡ any_below (length (terms_of body.now))
        (λ i. holds (term_in (terms_of body.now) i)
        (reading_of readings.entry.kept readings.entry.first.now readings.entry.second.now (terms_of body.now) i)) }
{
    let n = body.len() / 4;
    for i in 0..n {
        if is_met(body, i, readings) {
            return true;
        }
    }
    false
}
