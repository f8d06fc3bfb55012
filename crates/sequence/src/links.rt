// Which variables follow which: a head follows each variable that one of its rules reads by its mask.
ghost use Rattle.std.specs.Prelude.{◌≡◌, ◌<◌, ◌≤◌, length};
ghost use Rattle.format.specs.Limits.{max_variables, max_rules, max_terms};
ghost use Rattle.program.specs.Program.{rule_of};
ghost use Rattle.parts.specs.Values.{rule_header};
ghost use Rattle.sequence.specs.Standing.{RulesStand};

use parts::places::value_at;
use parts::rules;
use sets::Set;
use tables::{Tables, mask_in, place_in};
use words::Words;

// Node y follows node x, if there is a row for x.
fn mark(rows: &mut [u64], x: usize, y: usize)
    requires { (x < max_variables) × (y < max_variables) }
    ensures { length rows.new ≡ length rows.old }
{
    let at = Set::WORDS * x + y / Words::BITS;
    if at < rows.len() {
        rows[at] = rows[at] | (1u64 << (y % Words::BITS));
    }
}

// Position j of a rule, if its bit is set in the mask: the head follows its variable, or turned round its variable the head.
fn link_position(value: &[u8], head: u8, mask: u32, j: usize, turned: bool, rows: &mut [u64])
    requires { (rule_header ≤ length value.now) × (j < length (rule_of value.now).terms) × (j < max_terms) }
    ensures { length rows.new ≡ length rows.old }
{
    if (mask >> j) % 2 == 1 {
        let h = format::wide(head);
        let x = format::wide(rules::variable_at(value, j));
        if turned {
            mark(rows, h, x);
        } else {
            mark(rows, x, h);
        }
    }
}

// The rule in a field's value.
fn link_rule(value: &[u8], mask: u32, turned: bool, rows: &mut [u64])
    requires { (rule_header ≤ length value.now) × (length (rule_of value.now).terms ≤ max_terms) }
    ensures { length rows.new ≡ length rows.old }
{
    let rule = rules::header(value);
    let n = rules::positions(value);
    for j in 0..n {
        link_position(value, rule.head, mask, j, turned, rows);
    }
}

// The mask of rule i, 0 where it is none of the live rules.
pub fn mask_of(masks: &[u32], live: &[u64; Tables::ROW], i: usize) -> u32
    requires { i < max_rules }
{
    if words::has_bit(live, i) {
        mask_in(masks, i)
    } else {
        0
    }
}

// Every rule.
pub fn link(
    file: &[u8],
    rules: usize,
    offsets: &[u16],
    masks: &[u32],
    live: &[u64; Tables::ROW],
    turned: bool,
    rows: &mut [u64],
)
    requires { (rules ≤ max_rules) × RulesStand file.now offsets.now rules }
    ensures { length rows.new ≡ length rows.old }
{
    for i in 0..rules {
        let mask = mask_of(masks, live, i);
        link_rule(value_at(file, place_in(offsets, i)), mask, turned, rows);
    }
}

// No edge.
pub fn unlink(rows: &mut [u64])
    ensures { length rows.new ≡ length rows.old }
{
    rows.fill(0);
}
