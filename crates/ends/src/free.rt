// Rules that are undecided: a variable that is mixed there has a range that is not single. Their heads are let reach their far ends.
ghost use Rattle.std.specs.Prelude.{◌≡◌, ◌&&◌, ℕ, ◌+◌, pos, length};
ghost use Rattle.std.specs.Int.Signed.{lt_z};
ghost use Rattle.program.specs.Program.{Program, rule_in};
ghost use Rattle.program.specs.Reading.{AcceptedAs, Accepts};
ghost use Rattle.program.specs.Readings.{valued};
ghost use Rattle.sided.specs.Sides.{sides_length};
ghost use Rattle.run.specs.Running.{RuleStands, SomeRule};
ghost use Rattle.lent.specs.Lent.{undecided};
ghost use Rattle.ends.specs.Freed.{FitsRanges, AtStops, Freed};

use crate::masks::is_open;
use format::Format;
use parts::places::{next_at, value_at};
use parts::{rules, variables};
use program::{Counts, Variable};
use run::demands::head_at;
use sided::{Sides, write};

// Whether the declared range of x goes from below 0 to above it.
fn spans_zero(x: Variable) -> bool
    ensures { result ≡ (lt_z x.low (pos 0) && lt_z (pos 0) x.high) }
{
    let below = x.low < 0;
    let above = 0 < x.high;
    below & above
}

// Whether the rule whose field stands at `at` is undecided: it is a size, mixed and with a range that is not single.
fn is_undecided(
    file: &[u8],
    at: usize,
    lows: &[i64; Format::MAX_VARIABLES],
    highs: &[i64; Format::MAX_VARIABLES],
) -> bool
    requires { SomeRule file.now at }
    ensures { (P : Program) (i : ℕ) → RuleStands file.now P i at
        → result ≡ undecided P.variables (valued lows.now) (valued highs.now) (rule_in P.rules i) }
{
    let value = value_at(file, at);
    if value[0] != 5 {
        return false;
    }
    let v = rules::variable_at(value, 0);
    let x = variables::variable(file, v);
    let open = is_open(lows, highs, v);
    spans_zero(x) & open
}

// The head of the rule whose field stands at `at` gets its stop, if the rule is undecided.
fn free_rule(
    file: &[u8],
    at: usize,
    lows: &[i64; Format::MAX_VARIABLES],
    highs: &[i64; Format::MAX_VARIABLES],
    stops: &[i64; Format::MAX_VARIABLES],
    sides: &mut [i64; Sides::LENGTH],
)
    requires some_rule { SomeRule file.now at }
    requires sides_len { length sides.old ≡ sides_length }
    ensures sides_len_2 { length sides.new ≡ sides_length }
    ensures freed { (P : Program) (i : ℕ) → RuleStands file.now P i at
        → FitsRanges file.now (valued lows.now) (valued highs.now)
        → AtStops file.now (valued lows.now) (valued highs.now) stops.now
        → Freed P (valued lows.now) (valued highs.now) i sides.old
        → Freed P (valued lows.now) (valued highs.now) (i + 1) sides.new }
{
    if !is_undecided(file, at, lows, highs) {
        return;
    }
    let head = head_at(file, at);
    let x = variables::variable(file, head);
    let stop = stops[format::wide(head)];
    write(sides, x.is_from_above(), head, stop);
}

// The heads of all such rules.
pub fn free_heads(
    file: &[u8],
    counts: Counts,
    lows: &[i64; Format::MAX_VARIABLES],
    highs: &[i64; Format::MAX_VARIABLES],
    stops: &[i64; Format::MAX_VARIABLES],
    sides: &mut [i64; Sides::LENGTH],
)
    requires accepted_as { AcceptedAs file.now counts }
    requires fits_ranges { FitsRanges file.now (valued lows.now) (valued highs.now) }
    requires at_stops { AtStops file.now (valued lows.now) (valued highs.now) stops.now }
    requires sides_len { length sides.old ≡ sides_length }
    ensures sides_len_2 { length sides.new ≡ sides_length }
    ensures freed { (P : Program) → Accepts file.now P → Freed P (valued lows.now) (valued highs.now) 0 sides.old
        → Freed P (valued lows.now) (valued highs.now) (length P.rules) sides.new }
{
    let rules = counts.rules;
    let mut at = 8 * counts.variables;
    for _ in 0..rules {
        free_rule(file, at, lows, highs, stops, sides);
        at = next_at(file, at);
    }
}
