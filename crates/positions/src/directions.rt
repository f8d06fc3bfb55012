// Which way a term of a rule's body pushes.
ghost use Rattle.std.specs.Prelude.{◌≡◌, ◌&&◌};
ghost use Rattle.program.specs.Program.{term_form};
ghost use Rattle.program.specs.Variables.{is_founded};
ghost use Rattle.program.specs.Directions.{by_sign, by_range, plain_direction, away, term_direction, is_rising};

use program::{Direction, Term, Variable};

// By a coefficient, which is not 0; h is the head of the rule.
fn by_sign(h: Variable, number: i64) -> Direction
    ensures { result ≡ away h (by_sign number) }
{
    if number < 0 {
        h.away(Direction::Falling)
    } else {
        h.away(Direction::Rising)
    }
}

// By the range of a variable whose size is taken.
fn by_range(h: Variable, x: Variable) -> Direction
    ensures { result ≡ away h (by_range x) }
{
    let low = x.low;
    let high = x.high;
    if 0 <= low {
        return h.away(Direction::Rising);
    }
    if high <= 0 {
        h.away(Direction::Falling)
    } else {
        Direction::Mixed
    }
}

// A plain term, by the form of its rule.
fn plain(h: Variable, form: u8, x: Variable, number: i64) -> Direction
    ensures { result ≡ away h (plain_direction (term_form form) x number) }
{
    match form {
        1 => by_sign(h, number),
        2..=4 => h.away(Direction::Rising),
        5 => by_range(h, x),
        6 => Direction::Mixed,
        7 => h.away(Direction::Rising),
        8 => by_sign(h, number),
        0 | 9..=255 => Direction::Mixed,
    }
}

// A term, by its op; x is its variable, and h the head of its rule.
pub fn of_term(h: Variable, form: u8, x: Variable, t: Term) -> Direction
    ensures { result ≡ term_direction h (term_form form) x t }
{
    let op = t.op;
    match op {
        0 => plain(h, form, x, t.number),
        1 => Direction::Rising,
        2 => Direction::Falling,
        3..=255 => Direction::Mixed,
    }
}

// Whether the reduct keeps the variable x where it pushes this way: it is founded, and moving it away from its starting end makes the rule demand more.
pub fn is_kept(x: Variable, d: Direction) -> bool
    ensures { result ≡ (is_rising (away x d) && is_founded x) }
{
    let away = x.away(d);
    let more = away.is_rising();
    let founded = x.is_founded();
    more & founded
}
