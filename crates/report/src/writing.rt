// The report's entries, written by ascending variable from a buffer's first byte on.
ghost use Rattle.std.specs.Prelude.{◌≡◌, [], ◌∷◌, ◌++◌, ◌+◌, ◌*◌, ◌≤◌, nat_abs, length, drop};
ghost use Rattle.format.specs.Limits.{max_variables, max_number};
ghost use Rattle.words.specs.Bit.{has, count_from};
ghost use Rattle.report.specs.Report.{entry, bytes_in, bound, bound_above, at_most, at_least, only};
ghost use Rattle.report.specs.Written.{marked_of, marked, Wrote, Begins};
ghost use Rattle.program.specs.Readings.{valued};
ghost use Rattle.program.specs.Evaluable.{Small};

use format::Format;
use sets::Set;

#[derive(Drop)]
pub struct Mark {}

impl Mark {
    // The marks of an entry.
    pub const BOUND: u8 = 0;

    pub const BOUND_ABOVE: u8 = 3;

    pub const AT_MOST: u8 = 1;

    pub const AT_LEAST: u8 = 2;

    // The marks of the code are those of the specification.
    pub fn quoted()
        ensures bound { Mark.BOUND ≡ bound }
        ensures bound_above { Mark.BOUND_ABOVE ≡ bound_above }
        ensures at_most { Mark.AT_MOST ≡ at_most }
        ensures at_least { Mark.AT_LEAST ≡ at_least }
    {}
}

// Entry i.
fn write_entry(report: &mut [u8], i: usize, v: u8, mark: u8, number: i64)
    requires i_in_bounds { 4 * (i + 1) ≤ length report.old }
    requires number_bound { nat_abs number ≤ max_number }
    ensures { Wrote (entry v mark number ∷ []) i (i + 1) report.old report.new }
{
    let high = format::high_byte(number);
    let low = format::low_byte(number);
    report[4 * i] = v;
    report[4 * i + 1] = mark;
    report[4 * i + 2] = high;
    report[4 * i + 3] = low;
}

// Entry i, where the set has v; the number of the next entry.
fn write_member(report: &mut [u8], i: usize, set: Set, v: u8, mark: u8, number: i64) -> usize
    requires number_in_bounds { 4 * (i + length (only (has set.words v) (entry v mark number))) ≤ length report.old }
    requires number_bound { nat_abs number ≤ max_number }
    ensures { Wrote (only (has set.words v) (entry v mark number)) i result report.old report.new }
{
    if set.contains(v) {
        write_entry(report, i, v, mark, number);
        return i + 1;
    }
    i
}

// The entries of v from entry i on; the number of the next one.
fn write_variable(
    report: &mut [u8],
    i: usize,
    v: u8,
    first: Set,
    mark: u8,
    second: Set,
    other: u8,
    values: &[i64; Format::MAX_VARIABLES],
) -> usize
    requires v_in_bounds { 4 * (i + length (marked_of (has first.words) mark (has second.words) other (valued values.now) v)) ≤ length report.old }
    requires small { Small values.now }
    ensures { Wrote (marked_of (has first.words) mark (has second.words) other (valued values.now) v) i result report.old report.new }
{
    let value = values[format::wide(v)];
    let next = write_member(report, i, first, v, mark, value);
    write_member(report, next, second, v, other, value)
}

// For each variable an entry with `mark` where the first set has it, then one with `other` where the second has it.
fn write_marked(
    report: &mut [u8],
    first: Set,
    mark: u8,
    second: Set,
    other: u8,
    values: &[i64; Format::MAX_VARIABLES],
)
    requires values_in_bounds { 4 * length (marked (has first.words) mark (has second.words) other (valued values.now)) ≤ length report.old }
    requires small { Small values.now }
    ensures { Begins (marked (has first.words) mark (has second.words) other (valued values.now)) report.old report.new }
{
    let either = first.union(second);
    let mut from = 0;
    let mut i = 0;
    loop {
        let Some(v) = either.next(from) else {
            return;
        };
        i = write_variable(report, i, v as u8, first, mark, second, other, values);
        from = v + 1;
    }
}

// For each variable an entry with mark 0 where `below` has it, then one with mark 3 where `above` has it.
pub fn write_bounds(
    report: &mut [u8],
    below: Set,
    above: Set,
    values: &[i64; Format::MAX_VARIABLES],
)
    requires max_variables_in_bounds { 4 * (count_from (has below.words) 0 max_variables + count_from (has above.words) 0 max_variables) ≤ length report.old }
    requires small { Small values.now }
    ensures { report.new
        ≡ bytes_in (marked (has below.words) bound (has above.words) bound_above (valued values.now))
        ++ drop (4 * (count_from (has below.words) 0 max_variables + count_from (has above.words) 0 max_variables)) report.old }
{
    write_marked(report, below, Mark::BOUND, above, Mark::BOUND_ABOVE, values);
}

// For each variable an entry with mark 1 where `most` has it, then one with mark 2 where `least` has it.
pub fn write_conditions(
    report: &mut [u8],
    most: Set,
    least: Set,
    values: &[i64; Format::MAX_VARIABLES],
)
    requires max_variables_in_bounds { 4 * (count_from (has most.words) 0 max_variables + count_from (has least.words) 0 max_variables) ≤ length report.old }
    requires small { Small values.now }
    ensures { report.new
        ≡ bytes_in (marked (has most.words) at_most (has least.words) at_least (valued values.now))
        ++ drop (4 * (count_from (has most.words) 0 max_variables + count_from (has least.words) 0 max_variables)) report.old }
{
    write_marked(report, most, Mark::AT_MOST, least, Mark::AT_LEAST, values);
}
