// The lines of the report's entries.
#![tactic(auto)]

ghost use Rattle.std.specs.Prelude.{◌++◌, ◌+◌, ◌*◌, ◌≤◌, nat_abs, length};
ghost use Rattle.verdict.specs.Demands.{variable_at, mark_at, number_at};
ghost use Rattle.text.specs.Decimal.{decimal, number};
ghost use Rattle.text.specs.Output.{Appends};
ghost use Rattle.entries.specs.Text.{line, entry_line, entry_lines, entry_most};

use report::writing::Mark;
use text::{put, put_decimal, put_number, put_word};

// The line of an entry: its words, and between them its variable and its number.
fn put_line(output: &mut [u8], at: usize, first: &[u8], v: u8, second: &[u8], z: i64) -> usize
    requires { (at ≤ 100000) × (length first.now ≤ 100) × (length second.now ≤ 100) × (nat_abs z ≤ 32768) }
    ensures { Appends (line (first.now ++ decimal v ++ second.now ++ number z)) at result output.old output.new }
{
    let next = put_word(output, at, first);
    let next = put_decimal(output, next, format::wide(v));
    let next = put_word(output, next, second);
    let next = put_number(output, next, z);
    put(output, next, b'\n')
}

// The line of an entry with this variable, mark and number.
pub fn put_marked(output: &mut [u8], at: usize, v: u8, mark: u8, z: i64) -> usize
    requires { (at ≤ 100000) × (nat_abs z ≤ 32768) }
    ensures appends { Appends (entry_line v mark z) at result output.old output.new }
    ensures upper_bound { result ≤ at + entry_most }
{
    match mark {
        Mark::BOUND => put_line(output, at, b"most ", v, b" ", z),
        Mark::AT_MOST => put_line(output, at, b"when ", v, b" <= ", z),
        Mark::AT_LEAST => put_line(output, at, b"when ", v, b" >= ", z),
        Mark::BOUND_ABOVE => put_line(output, at, b"least ", v, b" ", z),
        _ => at,
    }
}

// The line of entry i.
fn put_entry(output: &mut [u8], at: usize, report: &[u8], i: usize) -> usize
    requires { (at ≤ 100000) × (4 * (i + 1) ≤ length report.now) }
    ensures appends { Appends (entry_line (variable_at report.now i) (mark_at report.now i) (number_at report.now i)) at result
        output.old output.new }
    ensures upper_bound { result ≤ at + entry_most }
{
    let v = report[4 * i];
    let mark = report[4 * i + 1];
    let z = format::signed_at(report, 4 * i + 2);
    put_marked(output, at, v, mark, z)
}

// The lines of the first `count` entries.
pub fn put_entries(output: &mut [u8], at: usize, report: &[u8], count: usize) -> usize
    requires { (at ≤ 1000) × (count ≤ 1000) × (4 * count ≤ length report.now) }
    ensures appends { Appends (entry_lines report.now count) at result output.old output.new }
    ensures upper_bound { result ≤ at + entry_most * count }
{
    let mut next = at;
    for i in 0..count {
        next = put_entry(output, next, report, i);
    }
    next
}
