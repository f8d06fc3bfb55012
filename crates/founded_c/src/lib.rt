// The static library for C programs: each function of `founded` under its name and with its clauses. include/founded.h declares them.
#![tactic(auto)]

ghost use Rattle.std.specs.Prelude.{◌≡◌, true};
ghost use Rattle.walks.specs.Walk.{Round};
ghost use Rattle.reach.specs.Rows.{row_has};
ghost use Rattle.reach.specs.Stepping.{Steps};
ghost use Rattle.sharing.specs.Sharing.{Names};
ghost use Rattle.founded.specs.Exports.{ExportedRead, ExportedLeast, ExportedCheck, ExportedNormalize, ExportedFlatten, ExportedBegin, ExportedBounds};

// The three counts of an accepted file, or the first refusal.
#[unsafe(no_mangle)]
pub extern "C" fn founded_read(file: &[u8]) -> u64
    ensures { ExportedRead file.now result }
{
    founded::founded_read(file)
}

// The least model of the assignment's reduct, written from the buffer's first byte on.
#[unsafe(no_mangle)]
pub extern "C" fn founded_least(file: &[u8], assignment: &[u8], buffer: &mut [u8]) -> u64
    ensures { ExportedLeast file.now assignment.now buffer.old result buffer.new }
{
    founded::founded_least(file, assignment, buffer)
}

// The verdict on an assignment, and for an unfounded one the report, from its first byte on.
#[unsafe(no_mangle)]
pub extern "C" fn founded_check(file: &[u8], assignment: &[u8], report: &mut [u8]) -> u64
    ensures { ExportedCheck file.now assignment.now report.old result report.new }
{
    founded::founded_check(file, assignment, report)
}

// The file's normal form, written from the buffer's first byte on.
#[unsafe(no_mangle)]
pub extern "C" fn founded_normalize(file: &[u8], buffer: &mut [u8]) -> u64
    ensures { ExportedNormalize file.now buffer.old result buffer.new }
{
    founded::founded_normalize(file, buffer)
}

// The plain file of a nested one, written from the buffer's first byte on.
#[unsafe(no_mangle)]
pub extern "C" fn founded_flatten(nested: &[u8], buffer: &mut [u8]) -> u64
    ensures { ExportedFlatten nested.now buffer.old result buffer.new }
{
    founded::founded_flatten(nested, buffer)
}

// How far each founded variable can still be lifted in lent ranges, written from the buffer's first byte on.
#[unsafe(no_mangle)]
pub extern "C" fn founded_bounds(file: &[u8], ranges: &[u8], buffer: &mut [u8]) -> u64
    ensures { ExportedBounds file.now ranges.now buffer.old result buffer.new }
{
    founded::founded_bounds(file, ranges, buffer)
}

// The sets before the first round of the search of the file's components, written from the first word on.
#[unsafe(no_mangle)]
pub extern "C" fn founded_begin(file: &[u8], sets: &mut [u64]) -> u64
    ensures { ExportedBegin file.now sets.old result sets.new }
{
    founded::founded_begin(file, sets)
}

// Variable k's round, and whether there is one.
#[unsafe(no_mangle)]
pub extern "C" fn founded_step(sets: &mut [u64], variables: usize, k: usize) -> bool
    ensures steps { Steps sets.old variables k result sets.new }
    ensures round { result ≡ true → Round (row_has sets.old) (row_has sets.new) variables k }
{
    founded::founded_step(sets, variables, k)
}

// The first variable of each variable's component, a byte each, and whether there is room.
#[unsafe(no_mangle)]
pub extern "C" fn founded_components(sets: &[u64], variables: usize, buffer: &mut [u8]) -> bool
    ensures { Names sets.now variables buffer.old result buffer.new }
{
    founded::founded_components(sets, variables, buffer)
}
