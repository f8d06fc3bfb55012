// Strides: by how much each head of a line may fall so that no rule of the line falls by more than its head's where all that it reads fall by theirs.
ghost use Rattle.std.specs.Prelude.{◌≡◌, ℕ, ◌≤◌, ◌<◌, pos, nat_abs, ◌≤ℤ◌, length};
ghost use Rattle.format.specs.Limits.{max_variables, max_rules, max_terms, max_number};
ghost use Rattle.program.specs.Program.{rule_of};
ghost use Rattle.program.specs.Readings.{valued};
ghost use Rattle.program.specs.Evaluable.{Small};
ghost use Rattle.parts.specs.Values.{rule_header};
ghost use Rattle.run.specs.Running.{SomeRule};
ghost use Rattle.sequence.specs.Standing.{RulesStand};

use crate::numbers::{minus, near, over, put, times};
use bodies::numbers::extreme;
use format::Format;
use parts::places::value_at;
use parts::{rules, terms};
use run::Source;
use sequence::listed;
use tables::{mask_in, place_in};

// The size of a number times a stride, added to what there is; or the larger of the stride and what there is.
fn add_stride(sums: bool, total: i64, number: i64, stride: i64) -> i64 {
    if !sums {
        return extreme(true, total, stride);
    }
    let more = times(number, stride);
    if more < 0 {
        return minus(total, more);
    }
    minus(total, minus(0, more))
}

// That of position j of a rule, if its bit is set in the mask.
fn add_position(
    value: &[u8],
    mask: u32,
    j: usize,
    sums: bool,
    strides: &[i64; Format::MAX_VARIABLES],
    total: i64,
) -> i64
    requires { (rule_header ≤ length value.now) × (j < length (rule_of value.now).terms) × (j < max_terms) }
{
    if (mask >> j) % 2 != 1 {
        return total;
    }
    let x = format::wide(rules::variable_at(value, j));
    add_stride(sums, total, number_at(value, j), strides[x])
}

// The number at position j of a rule.
fn number_at(value: &[u8], j: usize) -> i64
    requires { (rule_header ≤ length value.now) × (j < length (rule_of value.now).terms) }
{
    let t = terms::term(rules::body(value), j);
    t.number
}

// Those of all positions.
fn add_positions(value: &[u8], mask: u32, sums: bool, strides: &[i64; Format::MAX_VARIABLES]) -> i64
    requires { (rule_header ≤ length value.now) × (length (rule_of value.now).terms ≤ max_terms) }
{
    let n = rules::positions(value);
    let mut total = 0i64;
    for j in 0..n {
        total = add_position(value, mask, j, sums, strides, total);
    }
    total
}

// The stride that the head of the rule whose field stands at `at` needs.
fn stride_at(file: &[u8], at: usize, mask: u32, strides: &[i64; Format::MAX_VARIABLES]) -> i64
    requires { SomeRule file.now at }
{
    let value = value_at(file, at);
    let rule = rules::header(value);
    if rule.form == 8 {
        let sum = add_positions(value, mask, true, strides);
        return over(sum, rules::divisor(value));
    }
    add_positions(value, mask, rule.form == 1, strides)
}

// The stride of v becomes at least so long; whether it was shorter.
fn lengthen_to(strides: &mut [i64; Format::MAX_VARIABLES], v: u8, stride: i64) -> bool
    requires { (length strides.old ≡ max_variables) × Small strides.old }
    ensures { (length strides.new ≡ max_variables) × Small strides.new }
{
    let i = format::wide(v);
    let now = strides[i];
    if now == Format::MAX_NUMBER {
        return false;
    }
    if stride <= now {
        return false;
    }
    put(strides, i, stride);
    true
}

// That of v becomes at least what rule i needs, if it is one.
fn lengthen_one(
    source: &Source,
    i: usize,
    v: u8,
    strides: &mut [i64; Format::MAX_VARIABLES],
) -> bool
    requires rules_le_max_rules { (source.now.counts.rules ≤ max_rules) × RulesStand source.now.file.now source.now.offsets.now source.now.counts.rules }
    requires strides_len { (length strides.old ≡ max_variables) × Small strides.old }
    ensures { (length strides.new ≡ max_variables) × Small strides.new }
{
    if i >= source.counts.rules {
        return false;
    }
    let stride = stride_at(
        source.file,
        place_in(source.offsets, i),
        mask_in(source.masks, i),
        strides,
    );
    lengthen_to(strides, v, stride)
}

// Each head of the line once; whether a stride was lengthened.
fn lengthen_once(
    source: &Source,
    line: &[usize; Format::MAX_VARIABLES],
    heads: &[u8; Format::MAX_VARIABLES],
    count: usize,
    strides: &mut [i64; Format::MAX_VARIABLES],
) -> bool
    requires rules_le_max_rules { (source.now.counts.rules ≤ max_rules) × RulesStand source.now.file.now source.now.offsets.now source.now.counts.rules × (count ≤ max_variables) }
    requires strides_len { (length strides.old ≡ max_variables) × Small strides.old }
    ensures { (length strides.new ≡ max_variables) × Small strides.new }
{
    let mut some = false;
    for (&i, &head) in line.iter().zip(heads).take(count) {
        let longer = lengthen_one(source, i, head, strides);
        some = some | longer;
    }
    some
}

// The passes over a line in which strides are lengthened.
#[derive(Drop)]
pub struct Strides {}

impl Strides {
    pub const PASSES: usize = 8;
}

// Passes over the line until one lengthens no stride, which it answers; or as many as are made at most.
fn lengthen_all(
    source: &Source,
    line: &[usize; Format::MAX_VARIABLES],
    heads: &[u8; Format::MAX_VARIABLES],
    count: usize,
    strides: &mut [i64; Format::MAX_VARIABLES],
) -> bool
    requires rules_le_max_rules { (source.now.counts.rules ≤ max_rules) × RulesStand source.now.file.now source.now.offsets.now source.now.counts.rules × (count ≤ max_variables) }
    requires strides_len { (length strides.old ≡ max_variables) × Small strides.old }
    ensures { (length strides.new ≡ max_variables) × Small strides.new }
{
    for pass in 0..Strides::PASSES {
        if !lengthen_once(source, line, heads, count, strides) {
            return true;
        }
    }
    false
}

// The strides of the heads of the line are 1, all others of so many variables 0.
fn begin(
    variables: usize,
    heads: &[u8; Format::MAX_VARIABLES],
    count: usize,
    strides: &mut [i64; Format::MAX_VARIABLES],
)
    requires { (length strides.old ≡ max_variables) × Small strides.old }
    ensures { (length strides.new ≡ max_variables) × Small strides.new }
{
    clear(strides, variables);
    for &head in heads.iter().take(count) {
        put(strides, format::wide(head), 1);
    }
}

// The strides of n variables are 0.
fn clear(strides: &mut [i64; Format::MAX_VARIABLES], n: usize)
    requires { (length strides.old ≡ max_variables) × Small strides.old }
    ensures { (length strides.new ≡ max_variables) × Small strides.new }
{
    let many = listed(n);
    for v in 0..many {
        put(strides, v, 0);
    }
}

// The longest stride of n variables.
fn longest(strides: &[i64; Format::MAX_VARIABLES], n: usize) -> i64 {
    let mut most = 0i64;
    for &stride in strides.iter().take(n) {
        most = extreme(true, most, stride);
    }
    most
}

// A stride as it is, where it is kept and at least 1; else 1.
fn ended(stride: i64, kept: bool) -> i64
    ensures { (nat_abs result ≤ max_number) × (pos 1 ≤ℤ result) }
{
    let a = near(stride);
    if !kept {
        return 1;
    }
    if a < 1 {
        return 1;
    }
    a
}

// Every stride of n variables is at least 1, and 1 where they are not kept.
fn end(strides: &mut [i64; Format::MAX_VARIABLES], n: usize, kept: bool)
    requires { (length strides.old ≡ max_variables) × Small strides.old }
    ensures strides_len { (length strides.new ≡ max_variables) × Small strides.new }
    ensures by_index { (v : ℕ) → v < n → v < max_variables → pos 1 ≤ℤ valued strides.new v }
{
    let many = listed(n);
    for v in 0..many {
        let stride = ended(strides[v], kept);
        strides[v] = stride;
    }
}

// Strides of the heads of the line; 1 for all others of so many variables, and for all where none are found or one is too long.
pub fn lengthen(
    source: &Source,
    line: &[usize; Format::MAX_VARIABLES],
    heads: &[u8; Format::MAX_VARIABLES],
    count: usize,
    strides: &mut [i64; Format::MAX_VARIABLES],
)
    requires rules_le_max_rules { (source.now.counts.rules ≤ max_rules) × RulesStand source.now.file.now source.now.offsets.now source.now.counts.rules × (count ≤ max_variables) }
    requires strides_len { (length strides.old ≡ max_variables) × Small strides.old }
    ensures strides_len_2 { (length strides.new ≡ max_variables) × Small strides.new }
    ensures by_index { (v : ℕ) → v < source.now.counts.variables → v < max_variables → pos 1 ≤ℤ valued strides.new v }
{
    begin(source.counts.variables, heads, count, strides);
    let settled = lengthen_all(source, line, heads, count, strides);
    let short = longest(strides, source.counts.variables) < Format::MAX_NUMBER;
    end(strides, source.counts.variables, settled & short);
}
