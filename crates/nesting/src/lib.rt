// Reads the trees of a nested file, which stand after its plain part.
#![tactic(auto)]

ghost use Rattle.std.specs.Prelude.{◌≡◌, ◌+◌, ◌*◌, ◌≤◌, length, take};
ghost use Rattle.format.specs.Limits.{max_file};
ghost use Rattle.program.specs.Program.{variables_at};
ghost use Rattle.meaning.specs.Calls.{denial_number, denial_place};
ghost use Rattle.nested.specs.Nested.{Nested};
ghost use Rattle.plainpart.specs.PlainPart.{PlainCounted};
ghost use Rattle.flat.specs.Flat.{OneTree, flat_size};
ghost use Rattle.spans.specs.Spans.{records_length, Tables, Tabled};
ghost use Rattle.nesting.specs.Surveying.{Declares, Known, SoFar, Takes, stray_number, Surveys, max_bytes};

use fields::cursor::{Cursor, Field};
use format::Format;
use meaning::Denied;
use parts::variables::variable;
use plainpart::Tag;
use program::{Counts, Refusal};
use rewriting::writing::put;
use spans::fill_tree;
use treechecks::check_tree;

// The variables and rules of the plain file, and its size.
#[derive(Drop)]
pub struct Totals {
    pub variables: usize,
    pub rules: usize,
    pub bytes: usize,
}

// Enters the first n variables of the plain part in the tables.
fn load(
    lows: &mut [i64; Format::MAX_VARIABLES],
    highs: &mut [i64; Format::MAX_VARIABLES],
    records: &mut [u8],
    plain: &[u8],
    n: usize,
)
    requires declares { Declares plain.now n }
    requires tables { Tables lows.old highs.old × (length records.old ≡ records_length) }
    ensures { Tabled (variables_at plain.now n) records.new lows.new highs.new }
{
    for x in 0..n {
        let v = variable(plain, x as u8);
        let low = v.low;
        let high = v.high;
        lows[x] = low;
        highs[x] = high;
    }
    put(&plain[..8 * n], records, 0);
}

// The totals with those of a tree that adds so many variables.
fn more(totals: Totals, added: usize, tree: &[u8]) -> Totals
    requires variables_le_max_file { (totals.variables ≤ max_file) × (totals.rules ≤ max_file) × (totals.bytes ≤ max_bytes) × (added ≤ max_file) }
    requires one_tree { OneTree tree.now × (length tree.now ≤ max_file) × (flat_size tree.now ≤ max_bytes) }
    ensures { result ≡ record {
      variables = totals.variables + added;
      rules = totals.rules + (1 + added);
      bytes = totals.bytes + 8 * added + flat_size tree.now;
    } }
{
    Totals {
        variables: totals.variables + added,
        rules: totals.rules + (1 + added),
        bytes: totals.bytes + 8 * added + nodes::size(tree),
    }
}

// Takes in the tree of a field at `at` with this value, after the n variables of the plain part; its added variables are entered in the tables.
fn take_in(
    lows: &mut [i64; Format::MAX_VARIABLES],
    highs: &mut [i64; Format::MAX_VARIABLES],
    records: &mut [u8],
    plain: &[u8],
    n: usize,
    value: &[u8],
    at: usize,
    totals: Totals,
) -> Result<Totals, Denied>
    requires n_in_bounds { (8 * n ≤ length plain.now) × (length value.now ≤ max_file) × (totals.bytes ≤ max_bytes) }
    requires so_far { SoFar plain.now n totals records.old lows.old highs.old }
    ensures { (x : SoFar plain.now n totals records.old lows.old highs.old)
        → Takes x.program value.now at totals records.new lows.new highs.new result }
{
    let added = check_tree(plain, n, value, at, totals.variables, totals.rules)?;
    let head = variable(plain, value[0]);
    let tree = &value[1..];
    if !fill_tree(lows, highs, records, tree, totals.variables, head.kind) {
        return Err(Denied::Added(at));
    }
    Ok(more(totals, added, tree))
}

// A field at `at` with another tag, after a tree.
fn stray(tag: u8, at: usize) -> Denied
    ensures { (denial_number result ≡ stray_number tag) × (denial_place result ≡ at) }
{
    match tag {
        Format::VARIABLE..=Format::CONSTRAINT => Denied::File(Refusal::TagBelow, at),
        0 | 4..=255 => Denied::File(Refusal::UnknownTag, at),
    }
}

// The trees of a file, one after the other; its plain part has these counts and ends at `from`.
fn survey_trees(
    lows: &mut [i64; Format::MAX_VARIABLES],
    highs: &mut [i64; Format::MAX_VARIABLES],
    records: &mut [u8],
    file: &[u8],
    counts: Counts,
    from: usize,
) -> Result<Totals, Denied>
    requires plain_counted { PlainCounted file.now counts from }
    requires tabled { Tabled (variables_at (take from file.now) counts.variables) records.old lows.old highs.old }
    ensures { Surveys file.now records.new lows.new highs.new result }
{
    let n = counts.variables;
    let plain = &file[..from];
    let mut cursor = Cursor { at: from };
    let mut totals = Totals {
        variables: n,
        rules: counts.rules,
        bytes: from,
    };
    loop {
        let at = cursor.at;
        let field = cursor.field(file);
        if let Field::End = field {
            return Ok(totals);
        }
        let Field::Whole {
            tag,
            start,
            len,
            next,
        } = field
        else {
            return Err(Denied::File(Refusal::CutShort, at));
        };
        if tag != Tag::TREE {
            return Err(stray(tag, at));
        }
        let value = &file[start..start + len];
        totals = take_in(lows, highs, records, plain, n, value, at, totals)?;
        cursor = next;
    }
}

// The totals of a nested file whose plain part has these counts and ends at `from`, with the tables of all variables of its plain file; or its first refusal.
pub fn survey(
    lows: &mut [i64; Format::MAX_VARIABLES],
    highs: &mut [i64; Format::MAX_VARIABLES],
    records: &mut [u8],
    file: &[u8],
    counts: Counts,
    from: usize,
) -> Result<Totals, Denied>
    requires plain_counted { PlainCounted file.now counts from }
    requires tables { Tables lows.old highs.old × (length records.old ≡ records_length) }
    ensures { Surveys file.now records.new lows.new highs.new result }
{
    load(lows, highs, records, &file[..from], counts.variables);
    survey_trees(lows, highs, records, file, counts, from)
}
