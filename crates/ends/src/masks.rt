// Where rules stand, and their masks with lent ranges: which positions are read in the model, and whether the rule gives what lifts of its head stop at.
ghost use Rattle.std.specs.Prelude.{◌≡◌, cond, ◌≢◌, ℕ, ◌+◌, ◌*◌, ◌^◌, ◌<◌, ◌≤◌, length};
ghost use Rattle.std.specs.Int.Bits.{bit_or};
ghost use Rattle.std.specs.Int.Signed.{lt_z};
ghost use Rattle.format.specs.Limits.{max_file, max_terms};
ghost use Rattle.program.specs.Program.{Program, rule_of, variables_at};
ghost use Rattle.program.specs.Reading.{AcceptedAs, Accepts};
ghost use Rattle.program.specs.Readings.{valued};
ghost use Rattle.parts.specs.Values.{Standing};
ghost use Rattle.positions.specs.Positions.{OpenedIs};
ghost use Rattle.tables.specs.Entries.{RuleHere};
ghost use Rattle.tables.specs.Laid.{OffsetsOf};
ghost use Rattle.run.specs.Running.{free_bit};
ghost use Rattle.ends.specs.Ends.{WayIs, TermWay, LentMask, LentMasks, LentEntry};

use format::Format;
use parts::places::{next_at, value_at};
use parts::{rules, terms, variables};
use positions::kinds::Kinds;
use positions::{Opened, kinds, open_rule, position_at};
use program::{Counts, Term};
use reduct::kept::moved_up;
use tables::narrow;

// How a position is read: whether in the model, and whether it is mixed with a range that is not single.
#[derive(Drop)]
pub struct Way {
    pub first: bool,
    pub loose: bool,
}

// Whether the range of variable v is not single.
pub fn is_open(
    lows: &[i64; Format::MAX_VARIABLES],
    highs: &[i64; Format::MAX_VARIABLES],
    v: u8,
) -> bool
    ensures { result ≡ lt_z (valued lows.now v) (valued highs.now v) }
{
    let at = format::wide(v);
    let low = lows[at];
    let high = highs[at];
    low < high
}

// Position i of the rule in a field's value.
fn way_at(
    file: &[u8],
    variables: usize,
    value: &[u8],
    rule: Opened,
    i: usize,
    lows: &[i64; Format::MAX_VARIABLES],
    highs: &[i64; Format::MAX_VARIABLES],
) -> Way
    requires standing { Standing file.now variables value.now }
    requires opened_is { OpenedIs (variables_at file.now variables) (rule_of value.now) rule }
    requires i_in_bounds { i < length (rule_of value.now).terms }
    ensures { WayIs (variables_at file.now variables) (valued lows.now) (valued highs.now) (rule_of value.now) i result }
{
    let p = position_at(file, variables, value, rule, i);
    let x = variables::variable(file, p.variable);
    let open = is_open(lows, highs, p.variable);
    let d = p.direction;
    let back = d.opposite();
    let falls = back.is_rising();
    let founded = x.is_founded();
    let mixed = d.is_mixed();
    Way {
        first: p.kept | (!founded & falls),
        loose: mixed & open,
    }
}

// The mask with the bit that says that the rule gives what lifts of its head stop at, where it does.
fn with_free(bits: u32, free: bool) -> u32
    ensures { result ≡ cond free (bit_or bits (2 ^ free_bit)) bits }
{
    if free { bits | 2147483648 } else { bits }
}

// The mask of the rule in a field's value, of any form.
fn mask_by_direction(
    file: &[u8],
    variables: usize,
    value: &[u8],
    rule: Opened,
    lows: &[i64; Format::MAX_VARIABLES],
    highs: &[i64; Format::MAX_VARIABLES],
) -> u32
    requires standing { Standing file.now variables value.now }
    requires opened_is { OpenedIs (variables_at file.now variables) (rule_of value.now) rule }
    requires value_len_bound { length (rule_of value.now).terms ≤ max_terms }
    ensures { LentMask (variables_at file.now variables) (valued lows.now) (valued highs.now) (rule_of value.now) result }
{
    let mut bits: u32 = 0;
    let mut free = false;
    for i in (0..rules::positions(value)).rev() {
        let way = way_at(file, variables, value, rule, i, lows, highs);
        bits = moved_up(bits, way.first);
        free = free | way.loose;
    }
    with_free(bits, free)
}

// A term of a rule of another form than 5, by the kind that is kept there.
fn way_of(
    file: &[u8],
    kinds: Kinds,
    t: Term,
    lows: &[i64; Format::MAX_VARIABLES],
    highs: &[i64; Format::MAX_VARIABLES],
) -> Way
    requires { 8 * t.variable + 8 ≤ length file.now }
    ensures { (n : ℕ) → t.variable < n
        → TermWay (variables_at file.now n) (valued lows.now) (valued highs.now) kinds.up kinds.down t result }
{
    let x = variables::variable(file, t.variable);
    let kind = kinds::kind_of(kinds, t);
    let open = is_open(lows, highs, t.variable);
    let kept = kinds::keeps(kind, x);
    let founded = x.is_founded();
    let mixed = kinds::is_mixed(kind);
    Way {
        first: kept | (!founded & (kind == 2)),
        loose: mixed & open,
    }
}

// The mask of a rule of another form than 5, its kinds found once.
fn mask_by_kind(
    file: &[u8],
    variables: usize,
    value: &[u8],
    rule: Opened,
    lows: &[i64; Format::MAX_VARIABLES],
    highs: &[i64; Format::MAX_VARIABLES],
) -> u32
    requires standing { Standing file.now variables value.now }
    requires opened_is { OpenedIs (variables_at file.now variables) (rule_of value.now) rule }
    requires form_nonzero { (rule.form ≢ 5) × (length (rule_of value.now).terms ≤ max_terms) }
    ensures { LentMask (variables_at file.now variables) (valued lows.now) (valued highs.now) (rule_of value.now) result }
{
    let kinds = kinds::kinds_of(rule.form, rule.variable);
    let body = rules::body(value);
    let mut bits: u32 = 0;
    let mut free = false;
    for i in (0..rules::positions(value)).rev() {
        let t = terms::term(body, i);
        let way = way_of(file, kinds, t, lows, highs);
        bits = moved_up(bits, way.first);
        free = free | way.loose;
    }
    with_free(bits, free)
}

// The mask of the rule in a field's value. Of a size this goes by its variable's range, of all else by the kinds.
fn mask_of(
    file: &[u8],
    variables: usize,
    value: &[u8],
    lows: &[i64; Format::MAX_VARIABLES],
    highs: &[i64; Format::MAX_VARIABLES],
) -> u32
    requires standing { Standing file.now variables value.now }
    requires value_len_bound { length (rule_of value.now).terms ≤ max_terms }
    ensures { LentMask (variables_at file.now variables) (valued lows.now) (valued highs.now) (rule_of value.now) result }
{
    let rule = open_rule(file, variables, value);
    if rule.form == 5 {
        mask_by_direction(file, variables, value, rule, lows, highs)
    } else {
        mask_by_kind(file, variables, value, rule, lows, highs)
    }
}

// Enters the place and the mask of rule i, whose field stands at `at`, and answers where the next field stands.
fn enter(
    file: &[u8],
    variables: usize,
    at: usize,
    i: usize,
    lows: &[i64; Format::MAX_VARIABLES],
    highs: &[i64; Format::MAX_VARIABLES],
    offsets: &mut [u16],
    masks: &mut [u32],
) -> usize
    requires rule_here { RuleHere file.now variables at }
    requires at_le_max_file { (at ≤ max_file) × (i < length offsets.old) × (i < length masks.old) }
    ensures { LentEntry file.now variables (valued lows.now) (valued highs.now) at i result
        offsets.old offsets.new masks.old masks.new }
{
    let mask = mask_of(file, variables, value_at(file, at), lows, highs);
    offsets[i] = narrow(at);
    masks[i] = mask;
    next_at(file, at)
}

// Enters the place and the mask of every rule of a file that is accepted with these counts.
pub fn set_masks(
    file: &[u8],
    counts: Counts,
    lows: &[i64; Format::MAX_VARIABLES],
    highs: &[i64; Format::MAX_VARIABLES],
    offsets: &mut [u16],
    masks: &mut [u32],
)
    requires accepted_as { AcceptedAs file.now counts }
    requires rules_in_bounds { (counts.rules ≤ length offsets.old) × (counts.rules ≤ length masks.old) }
    ensures offsets_len_unchanged { length offsets.new ≡ length offsets.old }
    ensures masks_len_unchanged { length masks.new ≡ length masks.old }
    ensures offsets_of { OffsetsOf file.now offsets.new }
    ensures lent_masks { (P : Program) → Accepts file.now P → LentMasks P (valued lows.now) (valued highs.now) (length P.rules) masks.new }
{
    let n = counts.variables;
    let rules = counts.rules;
    let mut at = 8 * n;
    for i in 0..rules {
        at = enter(file, n, at, i, lows, highs, offsets, masks);
    }
}
