// A search of the components of a file, begun: the sets before the first round. `reach::step` does a round, `sharing::components` reads the
// components off the sets after the last.
#![tactic(auto)]

ghost use Rattle.std.specs.Prelude.{◌≤◌, length};
ghost use Rattle.fields.specs.Scanning.{Counted};
ghost use Rattle.search.specs.BeginCall.{BeginCall, answer_of};
ghost use Rattle.search.specs.Copying.{Copied};

use format::Format;
use meaning::Denied;
use program::Counts;
use reach::Rows;
use sets::Set;
use validity::rules::mark_edges;

// Copies the first n words of the rows.
fn copy(sets: &mut [u64], rows: &[u64], n: usize)
    requires { (n ≤ length rows.now) × (n ≤ length sets.old) }
    ensures { Copied rows.now sets.old sets.new n }
{
    sets[..n].copy_from_slice(&rows[..n]);
}

// A file whose fields passed, with its counts: the sets of its variables, where there is room.
fn draw(sets: &mut [u64], file: &[u8], counts: Counts) -> Result<usize, Denied>
    requires { Counted file.now counts }
    ensures { BeginCall file.now sets.old (answer_of result) sets.new }
{
    let n = counts.variables;
    if sets.len() < Set::WORDS * n {
        return Err(Denied::Buffer);
    }
    let mut rows = [0u64; Rows::LENGTH];
    let mut values = [0i64; Format::MAX_VARIABLES];
    mark_edges(&mut rows, &mut values, file, counts);
    copy(sets, &rows, Set::WORDS * n);
    Ok(n)
}

// The sets before the first round: that of each variable holds what the file's rules draw an edge to. A file whose fields passed has them, whether
// it is accepted or refused with 13.
pub fn begin(file: &[u8], sets: &mut [u64]) -> Result<usize, Denied>
    ensures { BeginCall file.now sets.old (answer_of result) sets.new }
{
    let counts = reader::pass(file, false)?;
    draw(sets, file, counts)
}
