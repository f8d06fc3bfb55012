// The calls of the C interface, each with its answer packed in a number, or a bool where there is nothing more to say. The crate `founded_c` hands them to C;
// include/founded.h takes the answers apart.
#![tactic(auto)]

ghost use Rattle.std.specs.Prelude.{◌≡◌, true};
ghost use Rattle.walks.specs.Walk.{Round};
ghost use Rattle.reach.specs.Rows.{row_has};
ghost use Rattle.reach.specs.Stepping.{Steps};
ghost use Rattle.sharing.specs.Sharing.{Names};
ghost use Rattle.founded.specs.Exports.{ExportedRead, ExportedLeast, ExportedCheck, ExportedNormalize, ExportedFlatten, ExportedBegin, ExportedBounds};

use packing::{of_beginning, of_bounding, of_reading, of_rewriting, of_solved, of_verdict, pack};

// The three counts of an accepted file, or the first refusal.
pub fn founded_read(file: &[u8]) -> u64
    ensures { ExportedRead file.now result }
{
    pack(of_reading(reader::read(file)))
}

// The least model of the assignment's reduct, written from the buffer's first byte on.
pub fn founded_least(file: &[u8], assignment: &[u8], buffer: &mut [u8]) -> u64
    ensures { ExportedLeast file.now assignment.now buffer.old result buffer.new }
{
    pack(of_solved(least::call::least(file, assignment, buffer)))
}

// The verdict on an assignment, and for an unfounded one the report, from its first byte on.
pub fn founded_check(file: &[u8], assignment: &[u8], report: &mut [u8]) -> u64
    ensures { ExportedCheck file.now assignment.now report.old result report.new }
{
    pack(of_verdict(checker::call::check(file, assignment, report)))
}

// The file's normal form, written from the buffer's first byte on.
pub fn founded_normalize(file: &[u8], buffer: &mut [u8]) -> u64
    ensures { ExportedNormalize file.now buffer.old result buffer.new }
{
    pack(of_rewriting(rewriting::call::normalize(file, buffer)))
}

// The plain file of a nested one, written from the buffer's first byte on.
pub fn founded_flatten(nested: &[u8], buffer: &mut [u8]) -> u64
    ensures { ExportedFlatten nested.now buffer.old result buffer.new }
{
    pack(of_rewriting(flattening::flatten(nested, buffer)))
}

// How far each founded variable can still be lifted in lent ranges, written from the buffer's first byte on.
pub fn founded_bounds(file: &[u8], ranges: &[u8], buffer: &mut [u8]) -> u64
    ensures { ExportedBounds file.now ranges.now buffer.old result buffer.new }
{
    pack(of_bounding(bounding::call::bounds(file, ranges, buffer)))
}

// The sets before the first round of the search of the file's components, written from the first word on.
pub fn founded_begin(file: &[u8], sets: &mut [u64]) -> u64
    ensures { ExportedBegin file.now sets.old result sets.new }
{
    pack(of_beginning(search::begin(file, sets)))
}

// Variable k's round, and whether there is one.
pub fn founded_step(sets: &mut [u64], variables: usize, k: usize) -> bool
    ensures steps { Steps sets.old variables k result sets.new }
    ensures round { result ≡ true → Round (row_has sets.old) (row_has sets.new) variables k }
{
    reach::step(sets, variables, k)
}

// The first variable of each variable's component, a byte each, and whether there is room.
pub fn founded_components(sets: &[u64], variables: usize, buffer: &mut [u8]) -> bool
    ensures { Names sets.now variables buffer.old result buffer.new }
{
    sharing::components(sets, variables, buffer)
}
