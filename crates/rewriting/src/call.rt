// The call normalize.
ghost use Rattle.std.specs.Prelude.{◌≡◌, ◌≤◌, length};
ghost use Rattle.format.specs.Limits.{max_file};
ghost use Rattle.program.specs.Program.{Program};
ghost use Rattle.program.specs.Reading.{AcceptedAs, Accepts};
ghost use Rattle.normal.specs.Normalizes.{Normalizes, answer_of};
ghost use Rattle.rewriting.specs.Writing.{max_fields, Prepared, Rewritten};

use crate::writing::{put, put_fields};
use format::Format;
use meaning::Denied;
use ordering::field::order_fields;
use program::Counts;
use sorting::sort::sort;
use sorting::stretches::Piece;

#[derive(Drop)]
pub struct Fields {}

impl Fields {
    // The most fields after the variables.
    pub const MOST: usize = Format::MAX_RULES + Format::MAX_CONSTRAINTS;

    // The constant of the code is that of the specification.
    pub fn quoted()
        ensures { Fields.MOST ≡ max_fields }
    {}
}

// The fields of an accepted file in a text that is as long, their terms in order; answers how many places of fields, sorted and without repeats, are at
// the front of `places`. The three lent lists lose what they hold.
fn prepare(
    file: &[u8],
    counts: Counts,
    text: &mut [u8],
    places: &mut [u16],
    spare: &mut [u16],
) -> usize
    requires accepted_as { AcceptedAs file.now counts }
    requires text_len { (length text.old ≡ length file.now) × (length places.old ≡ max_fields) × (length spare.old ≡ max_fields) }
    ensures text_len_2 { length text.new ≡ length file.now }
    ensures prepared { (P : Program) → Accepts file.now P → Prepared P text.new places.new result }
{
    put(file, text, 0);
    let fields = order_fields(file, counts, text, places);
    let left = sort(
        text,
        Piece::Field,
        &mut places[..fields],
        &mut spare[..fields],
    );
    left
}

// The variables of the file, then the fields at the first n places.
fn write(
    file: &[u8],
    counts: Counts,
    text: &[u8],
    places: &[u16],
    n: usize,
    buffer: &mut [u8],
) -> usize
    requires accepted_as { AcceptedAs file.now counts × (length file.now ≤ length buffer.old) }
    requires prepared { (P : Program) → Accepts file.now P → Prepared P text.now places.now n }
    ensures { (P : Program) → Accepts file.now P → Rewritten P buffer.old result buffer.new }
{
    let variables = counts.variables;
    let size = 8 * variables;
    let start = put(&file[..size], buffer, 0);
    put_fields(text, places, n, buffer, start)
}

// The normal form of an accepted file, by way of a text that is at least as long.
fn rewrite(
    file: &[u8],
    counts: Counts,
    text: &mut [u8],
    places: &mut [u16],
    spare: &mut [u16],
    buffer: &mut [u8],
) -> usize
    requires accepted_as { AcceptedAs file.now counts × (length file.now ≤ length buffer.old) }
    requires text_len { (length text.old ≡ max_file) × (length places.old ≡ max_fields) × (length spare.old ≡ max_fields) }
    ensures { (P : Program) → Accepts file.now P → Rewritten P buffer.old result buffer.new }
{
    let n = file.len();
    let left = prepare(file, counts, &mut text[..n], places, spare);
    write(file, counts, &text[..n], places, left, buffer)
}

// A call that is not turned down.
fn normalize_accepted(file: &[u8], buffer: &mut [u8], counts: Counts) -> Result<usize, Denied>
    requires { AcceptedAs file.now counts × (length file.now ≤ length buffer.old) }
    ensures { Normalizes file.now buffer.old (answer_of result) buffer.new }
{
    let mut text = [0u8; Format::MAX_FILE];
    let mut places = [0u16; Fields::MOST];
    let mut spare = [0u16; Fields::MOST];
    Ok(rewrite(file, counts, &mut text, &mut places, &mut spare, buffer))
}

// Writes the normal form of a file, from the buffer's first byte on, for every file and buffer.
pub fn normalize(file: &[u8], buffer: &mut [u8]) -> Result<usize, Denied>
    ensures { Normalizes file.now buffer.old (answer_of result) buffer.new }
{
    let counts = reader::read(file)?;
    if buffer.len() < file.len() {
        return Err(Denied::Room);
    }
    normalize_accepted(file, buffer, counts)
}
