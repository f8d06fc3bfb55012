// The call least.
ghost use Rattle.std.specs.Prelude.{◌≡◌, ℕ, ◌*◌, ◌≤◌, length, Ok};
ghost use Rattle.program.specs.Program.{Program};
ghost use Rattle.program.specs.Reading.{AcceptedAs, Accepts};
ghost use Rattle.meaning.specs.Stable.{assigned};
ghost use Rattle.meaning.specs.LeastCall.{LeastCall, AllInside, answer_of, least_bytes};
ghost use Rattle.program.specs.Readings.{valued};

use crate::writing::write_values;
use calls::open;
use format::Format;
use meaning::{Denied, Solved};
use program::Counts;
use reduct::loading;
use run::NoModel;
use sided::Sides;
use solving::run;

// What the call asks of its buffer.
#[derive(Drop)]
pub struct Asks {}

impl Asks {
    // The bytes for each variable.
    pub const BYTES: usize = 2;

    // The constant of the code is that of the specification.
    pub fn quoted()
        ensures { Asks.BYTES ≡ least_bytes }
    {}
}

// An assignment that lies in its ranges: the least model is written, or there is none.
fn solve(
    file: &[u8],
    assignment: &[u8],
    buffer: &mut [u8],
    counts: Counts,
    values: &[i64; Format::MAX_VARIABLES],
) -> Solved
    requires accepted_as { AcceptedAs file.now counts }
    requires assignment_len { (length assignment.now ≡ 2 * counts.variables) × (least_bytes * counts.variables ≤ length buffer.old) }
    requires by_index { (v : ℕ) → valued values.now v ≡ assigned assignment.now v }
    requires all_inside { (P : Program) → Accepts file.now P → AllInside P (assigned assignment.now) }
    ensures { LeastCall file.now assignment.now buffer.old (answer_of (Ok result)) buffer.new }
{
    let n = counts.variables;
    let mut sides = [0i64; Sides::LENGTH];
    let mut model = [0i64; Format::MAX_VARIABLES];
    let ending = run(file, counts, values, false, &mut sides, &mut model);
    match ending {
        Ok(()) => {
            write_values(&model, n, buffer);
            Solved::Found
        }
        Err(NoModel) => Solved::Nothing,
    }
}

// A call that is not turned down.
fn solve_in_ranges(file: &[u8], assignment: &[u8], buffer: &mut [u8], counts: Counts) -> Solved
    requires accepted_as { AcceptedAs file.now counts }
    requires assignment_len { (length assignment.now ≡ 2 * counts.variables) × (least_bytes * counts.variables ≤ length buffer.old) }
    ensures { LeastCall file.now assignment.now buffer.old (answer_of (Ok result)) buffer.new }
{
    let n = counts.variables;
    let mut loaded = [0i64; Format::MAX_VARIABLES];
    loading::load(assignment, &mut loaded);
    let outside = loading::first_outside(file, n, &loaded);
    match outside {
        Some(v) => Solved::Range(v),
        None => solve(file, assignment, buffer, counts, &loaded),
    }
}

// The least model of the assignment's reduct, written from the buffer's first byte on, for every file, assignment and buffer.
pub fn least(file: &[u8], assignment: &[u8], buffer: &mut [u8]) -> Result<Solved, Denied>
    ensures { LeastCall file.now assignment.now buffer.old (answer_of result) buffer.new }
{
    let counts = open(file, assignment, buffer.len(), Asks::BYTES)?;
    Ok(solve_in_ranges(file, assignment, buffer, counts))
}
