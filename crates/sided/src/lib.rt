// A body read in values that stand twice: for each variable first what rising positions read of it, then what falling ones do.
#![tactic(auto)]

ghost use Rattle.std.specs.Prelude.{◌≡◌, Bool, not, cond, ℕ, ◌+◌, ◌-◌, ◌*◌, ◌/◌, ◌<◌, ◌≤◌, eqb, pos, nat_abs, ◌+ℤ◌, ◌*ℤ◌, length, set};
ghost use Rattle.std.specs.Int.Signed.{lt_z};
ghost use Rattle.format.specs.Limits.{max_terms, max_number, max_coefficient};
ghost use Rattle.program.specs.Program.{terms_of, term_in};
ghost use Rattle.program.specs.Evaluate.{sum_below, pick_to, holds, all_hold};
ghost use Rattle.program.specs.Evaluable.{Small, Plain, Coefficients};
ghost use Rattle.bodies.specs.Readings.{extreme, weighted};
ghost use Rattle.sided.specs.Sides.{sides_length, side_place, on_side, sided_reading};

use bodies::numbers;
use format::Format;

pub mod rules;

#[derive(Drop)]
pub struct Sides {}

impl Sides {
    // Two values for each variable.
    pub const LENGTH: usize = 2 * Format::MAX_VARIABLES;

    // The constant of the code is that of the specification.
    pub fn quoted()
        ensures { Sides.LENGTH ≡ sides_length }
    {}
}

// 1 for falling positions.
fn one_if(falling: bool) -> usize
    ensures { (result ≡ cond falling 1 0) × (result ≤ 1) }
{
    if falling { 1 } else { 0 }
}

// The value of variable x for rising positions, or for falling ones.
pub fn read(sides: &[i64; Sides::LENGTH], falling: bool, x: u8) -> i64
    ensures { result ≡ on_side sides.now falling x }
{
    let v = format::wide(x);
    let side = one_if(falling);
    sides[2 * v + side]
}

// The value of variable x for rising positions, or for falling ones, is set to a.
pub fn write(sides: &mut [i64; Sides::LENGTH], falling: bool, x: u8, a: i64)
    requires { length sides.old ≡ sides_length }
    ensures sides_len { length sides.new ≡ sides_length }
    ensures sides_after { sides.new ≡ set sides.old (side_place falling x) a }
{
    let v = format::wide(x);
    let side = one_if(falling);
    sides[2 * v + side] = a;
}

// The side that is read for a number times a variable: the other one where the number is negative.
fn is_turned(side: bool, number: i64) -> bool
    ensures { result ≡ cond (lt_z number (pos 0)) (not side) side }
{
    if number < 0 { !side } else { side }
}

// The side that is read for a term with this op.
fn is_falling(op: u8, side: bool) -> bool
    ensures { result ≡ cond (eqb op 0) side (eqb op 2) }
{
    if op == 0 { side } else { op == 2 }
}

// What term i, a plain one, adds to a sum.
fn weigh(body: &[u8], i: usize, side: bool, sides: &[i64; Sides::LENGTH]) -> i64
    requires i_in_bounds { 4 * i + 4 ≤ length body.now }
    requires i_value { (term_in (terms_of body.now) i).op ≡ 0 }
    requires i_bound { nat_abs (term_in (terms_of body.now) i).number ≤ max_coefficient }
    requires small { Small sides.now }
    ensures { result ≡ weighted (terms_of body.now) (sided_reading sides.now 1 side (terms_of body.now)) i }
{
    let term = parts::terms::term(body, i);
    let falling = is_turned(side, term.number);
    numbers::times(term.number, read(sides, falling, term.variable))
}

// c and, for each of plain terms, its number times its value.
pub fn sum(c: i64, body: &[u8], side: bool, sides: &[i64; Sides::LENGTH]) -> i64
    requires c_bound { (nat_abs c ≤ max_number) × (length body.now / 4 ≤ max_terms) }
    requires plain { Plain (terms_of body.now) }
    requires coefficients { Coefficients (terms_of body.now) }
    requires small { Small sides.now }
    ensures { result ≡ c +ℤ sum_below (weighted (terms_of body.now)
        (sided_reading sides.now 1 side (terms_of body.now))) (length (terms_of body.now)) }
{
    let terms = body.len() / 4;
    let mut total: i64 = 0;
    for i in 0..terms {
        total = numbers::plus(total, weigh(body, i, side, sides));
    }
    numbers::plus(c, total)
}

// The value at position i of a body, whose term is plain and has no coefficient.
fn read_plain(body: &[u8], i: usize, side: bool, sides: &[i64; Sides::LENGTH]) -> i64
    requires i_in_bounds { 4 * i + 4 ≤ length body.now }
    requires i_value { (term_in (terms_of body.now) i).op ≡ 0 }
    ensures { result ≡ sided_reading sides.now 0 side (terms_of body.now) i }
{
    let term = parts::terms::term(body, i);
    read(sides, side, term.variable)
}

// The value at position i of a body of a form other than 1.
pub fn read_position(body: &[u8], i: usize, side: bool, sides: &[i64; Sides::LENGTH]) -> i64
    requires { 4 * i + 4 ≤ length body.now }
    ensures { result ≡ sided_reading sides.now 0 side (terms_of body.now) i }
{
    let term = parts::terms::term(body, i);
    let falling = is_falling(term.op, side);
    read(sides, falling, term.variable)
}

// The largest value of a body of plain terms where `most` says so, else the smallest; it has a term, and a form other than 1.
pub fn extreme(most: bool, body: &[u8], side: bool, sides: &[i64; Sides::LENGTH]) -> i64
    requires in_bounds { 4 ≤ length body.now }
    requires plain { Plain (terms_of body.now) }
    ensures { result ≡ pick_to (extreme most) (sided_reading sides.now 0 side (terms_of body.now))
        (length (terms_of body.now) - 1) }
{
    let n = body.len() / 4;
    let mut found = read_plain(body, 0, side, sides);
    for i in 1..n {
        found = numbers::extreme(most, found, read_plain(body, i, side, sides));
    }
    found
}

// The first value times the second, in a body of plain terms of a form other than 1.
pub fn product(body: &[u8], side: bool, sides: &[i64; Sides::LENGTH]) -> i64
    requires in_bounds { 8 ≤ length body.now }
    requires plain { Plain (terms_of body.now) }
    requires small { Small sides.now }
    ensures { result ≡ sided_reading sides.now 0 side (terms_of body.now) 0
        *ℤ sided_reading sides.now 0 side (terms_of body.now) 1 }
{
    numbers::times(
        read_plain(body, 0, side, sides),
        read_plain(body, 1, side, sides),
    )
}

// Whether the literal at position i holds; a plain term asks nothing, whatever it reads.
fn is_met(body: &[u8], i: usize, sides: &[i64; Sides::LENGTH]) -> bool
    requires { 4 * i + 4 ≤ length body.now }
    ensures { (form : ℕ) (side : Bool) → result ≡ holds (term_in (terms_of body.now) i)
        (sided_reading sides.now form side (terms_of body.now) i) }
{
    let term = parts::terms::term(body, i);
    numbers::holds(term, read(sides, term.op == 2, term.variable))
}

// Whether every literal of a body holds.
pub fn all_hold(body: &[u8], sides: &[i64; Sides::LENGTH]) -> bool
    ensures { (form : ℕ) (side : Bool) → result ≡ all_hold (terms_of body.now)
        (sided_reading sides.now form side (terms_of body.now)) (length (terms_of body.now)) }
{
    let n = body.len() / 4;
    for i in 0..n {
        if !is_met(body, i, sides) {
            return false;
        }
    }
    true
}
