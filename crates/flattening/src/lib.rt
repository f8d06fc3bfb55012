// The call flatten.
#![tactic(auto)]

ghost use Rattle.std.specs.Prelude.{◌≡◌, ℕ, ◌+◌, ◌≤◌, length, take};
ghost use Rattle.program.specs.Fields.{place};
ghost use Rattle.program.specs.Components.{Valid};
ghost use Rattle.fields.specs.Scanning.{Counted};
ghost use Rattle.normal.specs.Normalizes.{answer_of};
ghost use Rattle.nested.specs.Nested.{nested};
ghost use Rattle.nested.specs.Flatten.{flatten};
ghost use Rattle.nested.specs.NestedReading.{NestedWhole};
ghost use Rattle.nested.specs.FlattenCall.{FlattenCall};
ghost use Rattle.plainpart.specs.PlainPart.{PlainCounted};
ghost use Rattle.linking.specs.Judging.{Settled};
ghost use Rattle.flattening.specs.Writing.{TreesPut, TreesFit, FlatWritten, Sized};

use format::Format;
use linking::judge;
use meaning::Denied;
use nesting::{Totals, survey};
use noderules::put_tree;
use parts::places;
use plainpart::read_plain;
use program::{Counts, Refusal};
use rewriting::writing::put;
use spans::Records;
use treechecks::added_by;

// Where the rules of a plain part end.
fn rules_end(plain: &[u8], counts: Counts) -> usize
    requires { Counted plain.now counts }
    ensures { result ≡ place plain.now (counts.variables + counts.rules) }
{
    let n = counts.variables;
    let rules = counts.rules;
    let mut at = 8 * n;
    for i in 0..rules {
        at = places::next_at(plain, at);
    }
    at
}

// The rules of all trees, which stand from `from` on, put in from `at` on.
fn put_trees(
    file: &[u8],
    counts: Counts,
    from: usize,
    variables: usize,
    records: &[u8],
    buffer: &mut [u8],
    at: usize,
) -> usize
    requires settled { Settled file.now counts from variables records.now }
    requires trees_fit { TreesFit file.now counts.variables buffer.old at }
    ensures { TreesPut file.now counts.variables buffer.old at result buffer.new }
{
    let mut place = from;
    let mut next = counts.variables;
    let mut end = at;
    while place < file.len() {
        let value = places::value_at(file, place);
        end = put_tree(&value[1..], value[0], next, buffer, end);
        next += added_by(value);
        place = places::next_at(file, place);
    }
    end
}

// The plain file, from the buffer's first byte on.
fn write(
    file: &[u8],
    counts: Counts,
    from: usize,
    totals: Totals,
    records: &[u8],
    buffer: &mut [u8],
) -> usize
    requires sized { Sized file.now counts from totals.variables totals.bytes records.now }
    requires bytes_in_bounds { totals.bytes ≤ length buffer.old }
    ensures { FlatWritten file.now buffer.old result buffer.new }
{
    let variables = totals.variables;
    let first = 8 * counts.variables;
    let rules = rules_end(&file[..from], counts);
    let added = put(&records[..8 * variables], buffer, 0);
    let old = put(&file[first..rules], buffer, added);
    let all = put_trees(file, counts, from, variables, records, buffer, old);
    put(&file[rules..from], buffer, all)
}

// A nested file whose fields pass: refusals 13 and 17, or its plain file.
fn flatten_surveyed(
    file: &[u8],
    buffer: &mut [u8],
    counts: Counts,
    from: usize,
    totals: Totals,
    records: &[u8],
) -> Result<usize, Denied>
    requires { Sized file.now counts from totals.variables totals.bytes records.now }
    ensures { FlattenCall file.now buffer.old (answer_of result) buffer.new }
{
    if let Some(at) = judge(file, counts, from, totals.variables, records) {
        return Err(Denied::File(Refusal::NotValid, at));
    }
    if Format::MAX_FILE < totals.bytes {
        return Err(Denied::Room);
    }
    if buffer.len() < totals.bytes {
        return Err(Denied::Room);
    }
    Ok(write(file, counts, from, totals, records, buffer))
}

// A nested file whose plain part has these counts and ends at `from`.
fn flatten_plain(
    file: &[u8],
    buffer: &mut [u8],
    counts: Counts,
    from: usize,
) -> Result<usize, Denied>
    requires { PlainCounted file.now counts from }
    ensures { FlattenCall file.now buffer.old (answer_of result) buffer.new }
{
    let mut lows = [0i64; Format::MAX_VARIABLES];
    let mut highs = [0i64; Format::MAX_VARIABLES];
    let mut records = [0u8; Records::LENGTH];
    let totals = survey(&mut lows, &mut highs, &mut records, file, counts, from)?;
    flatten_surveyed(file, buffer, counts, from, totals, &records)
}

// Writes the plain file of a nested one, from the buffer's first byte on, for every file and buffer.
pub fn flatten(nested: &[u8], buffer: &mut [u8]) -> Result<usize, Denied>
    ensures { FlattenCall nested.now buffer.old (answer_of result) buffer.new }
{
    let (counts, from) = read_plain(nested)?;
    flatten_plain(nested, buffer, counts, from)
}
