// What the program `bounds` writes: a line for the bound of each founded variable, or the line of a refusal.
#![tactic(auto)]

ghost use Rattle.std.specs.Prelude.{◌≡◌, ℕ, ◌+◌, ◌*◌, ◌<◌, ◌≤◌, nat_abs, length};
ghost use Rattle.format.specs.Limits.{max_variables};
ghost use Rattle.program.specs.Program.{variable_in, variables_at};
ghost use Rattle.meaning.specs.Stable.{assigned};
ghost use Rattle.text.specs.Output.{Appends};
ghost use Rattle.entries.specs.Text.{entry_most};
ghost use Rattle.listing.specs.Lists.{max_input, buffer_bytes, room, bound_line, bound_lines, Told, Listed};

use bounding::call::{Asks, bounds};
use entries::put_marked;
use format::Format;
use framing::{Framing, is_misframed};
use lines::{put_refused, put_two};
use parts::variables;
use program::Variable;
use report::writing::Mark;

#[derive(Drop)]
pub struct Listing {}

impl Listing {
    // The longest input.
    pub const MAX_INPUT: usize = 61026;

    // The bytes of the buffer that the call is lent.
    pub const BUFFER: usize = Asks::BYTES * Format::MAX_VARIABLES;

    // Room for the longest text.
    pub const ROOM: usize = 4864;

    // The constants of the code are those of the specification.
    pub fn quoted()
        ensures max_input { Listing.MAX_INPUT ≡ max_input }
        ensures buffer { Listing.BUFFER ≡ buffer_bytes }
        ensures room { Listing.ROOM ≡ room }
    {}
}

// The line of a variable with its bound, where it is founded.
fn put_bound(output: &mut [u8], at: usize, x: Variable, v: u8, z: i64) -> usize
    requires { (at ≤ 100000) × (nat_abs z ≤ 32768) }
    ensures appends { Appends (bound_line x v z) at result output.old output.new }
    ensures upper_bound { result ≤ at + entry_most }
{
    let kind = x.kind;
    match kind {
        1 => put_marked(output, at, v, Mark::BOUND, z),
        2 => put_marked(output, at, v, Mark::BOUND_ABOVE, z),
        _ => at,
    }
}

// The line of the file's variable v, with its bound.
fn put_variable(output: &mut [u8], at: usize, file: &[u8], bounds: &[u8], v: usize) -> usize
    requires at_bound { (at ≤ 100000) × (v < max_variables) }
    requires v_in_bounds { (8 * v + 8 ≤ length file.now) × (2 * v + 2 ≤ length bounds.now) }
    ensures by_index { (n : ℕ) → v < n → Appends (bound_line (variable_in (variables_at file.now n) v) v (assigned bounds.now v)) at result
        output.old output.new }
    ensures upper_bound { result ≤ at + entry_most }
{
    let z = format::signed_at(bounds, 2 * v);
    let x = variables::variable(file, v as u8);
    put_bound(output, at, x, v as u8, z)
}

// The lines of the file's first n variables, with their bounds.
fn put_bounds(output: &mut [u8], file: &[u8], bounds: &[u8], n: usize) -> usize
    requires { (n ≤ max_variables) × (8 * n ≤ length file.now) × (2 * n ≤ length bounds.now) }
    ensures appends { Appends (bound_lines (variables_at file.now n) bounds.now n) 0 result output.old output.new }
    ensures upper_bound { result ≤ entry_most * n }
{
    let mut next = 0;
    for v in 0..n {
        next = put_variable(output, next, file, bounds, v);
    }
    next
}

// The text of what the call answers.
fn list_called(file: &[u8], ranges: &[u8], output: &mut [u8]) -> usize
    ensures { Told file.now ranges.now output.old result output.new }
{
    let mut buffer = [0u8; Listing::BUFFER];
    match bounds(file, ranges, &mut buffer) {
        Err(why) => put_refused(output, why),
        Ok(()) => put_bounds(output, file, &buffer, ranges.len() / Asks::RANGE),
    }
}

// The text for an input, from the output's first byte on, for every input and output; answers how many bytes the text has. Of a text that is
// longer than the output the first bytes are written, as many as the output has; the bytes after a shorter text keep their values. No text has
// more than `Listing::ROOM` bytes.
pub fn list(input: &[u8], output: &mut [u8]) -> usize
    ensures { Listed input.now output.old result output.new }
{
    if is_misframed(input, Listing::MAX_INPUT) {
        return put_two(output, b"refused ", Framing::REFUSAL, 0);
    }
    let end = 2 + format::unsigned_at(input, 0);
    list_called(&input[2..end], &input[end..], output)
}
