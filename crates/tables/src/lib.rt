// The tables of a run: where each rule stands and which of its positions are kept; and which rules read a variable.
#![tactic(auto)]

ghost use Rattle.std.specs.Prelude.{◌≡◌, ◌&&◌, false, ℕ, ◌*◌, ◌<◌, ◌≤◌, eqb, length, get_or};
ghost use Rattle.format.specs.Limits.{max_file, max_rules, max_terms};
ghost use Rattle.words.specs.Bit.{has, bit};
ghost use Rattle.program.specs.Program.{Program, rule_of};
ghost use Rattle.program.specs.Readings.{body_variable};
ghost use Rattle.parts.specs.Values.{rule_header};
ghost use Rattle.program.specs.Reading.{AcceptedAs, Accepts};
ghost use Rattle.tables.specs.Tabled.{row_words, readers_words, narrow_variables, middle_variables, read_at, RowIn, RowsIn, Entered, ReadersAre};
ghost use Rattle.tables.specs.Entries.{RuleHere, EntryMade};
ghost use Rattle.tables.specs.Laid.{OffsetsOf, Laid};

use format::Format;
use parts::places::{next_at, value_at};
use parts::rules;
use program::Counts;
use reduct::kept::kept_positions;
use words::Words;

#[derive(Drop)]
pub struct Tables {}

impl Tables {
    // The words of a set of rules.
    pub const ROW: usize = Format::MAX_RULES / Words::BITS;

    // Files of no more rules have small tables.
    pub const FEW: usize = 128;

    // The words of a set of rules for each variable.
    pub const READERS: usize = Format::MAX_VARIABLES * Tables::ROW;

    // Files of no more variables have a short table of readers.
    pub const NARROW: usize = 16;

    // Files of no more variables have a middling one.
    pub const MIDDLE: usize = 64;

    // The constants of the code are those of the specification.
    pub fn quoted()
        ensures row { Tables.ROW ≡ row_words }
        ensures readers { Tables.READERS ≡ readers_words }
        ensures narrow { Tables.NARROW ≡ narrow_variables }
        ensures middle { Tables.MIDDLE ≡ middle_variables }
    {}
}

// A place in a file fits in two bytes.
pub fn narrow(at: usize) -> u16
    requires { at ≤ max_file }
    ensures { result ≡ at }
{
    at as u16
}

fn wide(at: u16) -> usize
    ensures { result ≡ at }
{
    at as usize
}

// Where rule i stands; 0 past the table's end.
pub fn place_in(offsets: &[u16], i: usize) -> usize
    ensures { result ≡ get_or offsets.now i 0 }
{
    if i < offsets.len() {
        return wide(offsets[i]);
    }
    0
}

// The mask of rule i; 0 past the table's end.
pub fn mask_in(masks: &[u32], i: usize) -> u32
    ensures { result ≡ get_or masks.now i 0 }
{
    if i < masks.len() {
        return masks[i];
    }
    0
}

// Rule k reads the variable at position j of its body, where the mask has that position.
fn enter_position(readers: &mut [u64], value: &[u8], mask: u32, k: usize, j: usize)
    requires k_lt_max_rules { (k < max_rules) × (rule_header ≤ length value.now) × (j < length (rule_of value.now).terms) × (j < max_terms) }
    requires row_in { RowIn (length readers.old) (body_variable (rule_of value.now) j) }
    ensures readers_len_unchanged { length readers.new ≡ length readers.old }
    ensures entered { Entered readers.old readers.new k (λ x. bit mask j && eqb (body_variable (rule_of value.now) j) x) }
{
    if (mask >> j) % 2 == 1 {
        let x = format::wide(rules::variable_at(value, j));
        words::add_bit(readers, Format::MAX_RULES * x + k);
    }
}

// Rule k reads the variables at the positions of its mask.
fn enter_rule(readers: &mut [u64], value: &[u8], mask: u32, k: usize)
    requires k_lt_max_rules { (k < max_rules) × (rule_header ≤ length value.now) × (length (rule_of value.now).terms ≤ max_terms) }
    requires rows_in { RowsIn (length readers.old) (rule_of value.now) }
    ensures readers_len_unchanged { length readers.new ≡ length readers.old }
    ensures entered { Entered readers.old readers.new k (read_at (rule_of value.now) mask) }
{
    let n = rules::positions(value);
    for j in 0..n {
        enter_position(readers, value, mask, k, j);
    }
}

// Enters rule i, whose field stands at `at`, and answers where the next field stands.
fn enter(
    file: &[u8],
    variables: usize,
    at: usize,
    i: usize,
    offsets: &mut [u16],
    masks: &mut [u32],
) -> usize
    requires rule_here { RuleHere file.now variables at }
    requires at_le_max_file { (at ≤ max_file) × (i < length offsets.old) × (i < length masks.old) }
    ensures { EntryMade file.now variables at i result offsets.old offsets.new masks.old masks.new }
{
    let mask = kept_positions(file, variables, value_at(file, at));
    offsets[i] = narrow(at);
    masks[i] = mask;
    next_at(file, at)
}

// Enters the place and the mask of every rule of a file that is accepted with these counts.
pub fn fill_tables(file: &[u8], counts: Counts, offsets: &mut [u16], masks: &mut [u32])
    requires accepted_as { AcceptedAs file.now counts }
    requires rules_in_bounds { (counts.rules ≤ length offsets.old) × (counts.rules ≤ length masks.old) }
    ensures { Laid file.now counts offsets.new masks.new }
{
    let n = counts.variables;
    let rules = counts.rules;
    let mut at = 8 * n;
    for i in 0..rules {
        let next = enter(file, n, at, i, offsets, masks);
        at = next;
    }
}

// Enters every rule of a file that is accepted with these counts, by its place and its mask, among the readers of its variables.
pub fn fill_readers(
    file: &[u8],
    counts: Counts,
    offsets: &[u16],
    masks: &[u32],
    readers: &mut [u64],
)
    requires accepted_as { AcceptedAs file.now counts }
    requires offsets_of { OffsetsOf file.now offsets.now }
    requires variables_in_bounds { row_words * counts.variables ≤ length readers.old }
    requires by_index { (n : ℕ) → has readers.old n ≡ false }
    ensures readers_len_unchanged { length readers.new ≡ length readers.old }
    ensures readers_are { (P : Program) → Accepts file.now P → ReadersAre P (length P.rules) masks.now readers.new }
{
    let rules = counts.rules;
    for i in 0..rules {
        let at = place_in(offsets, i);
        let mask = mask_in(masks, i);
        enter_rule(readers, value_at(file, at), mask, i);
    }
}
