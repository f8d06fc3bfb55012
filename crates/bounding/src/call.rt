// The call bounds.
ghost use Rattle.std.specs.Prelude.{◌≡◌, ℕ, ◌*◌, ◌≤◌, length};
ghost use Rattle.format.specs.Limits.{max_variables};
ghost use Rattle.program.specs.Program.{Program};
ghost use Rattle.program.specs.Reading.{AcceptedAs, Accepts};
ghost use Rattle.program.specs.Readings.{valued};
ghost use Rattle.meaning.specs.LeastCall.{least_bytes};
ghost use Rattle.lent.specs.BoundsCall.{BoundsCall, answer_of, range_bytes};
ghost use Rattle.ends.specs.Freed.{FitsRanges, AtStops};
ghost use Rattle.bounding.specs.Writing.{BoundsWritten, AtOthers, OnTheWay, EndsBounded};

use ascent::starts::{start_sides, values_of};
use ascent::sweeping::climb;
use ends::free::free_heads;
use ends::masks::set_masks;
use ends::ranges;
use format::Format;
use least::writing::write_values;
use meaning::Denied;
use program::Counts;
use run::{NoModel, Source};
use settling::settle;
use sided::Sides;
use tables::Tables;

// What the call asks of its ranges and of its buffer.
#[derive(Drop)]
pub struct Asks {}

impl Asks {
    // The bytes of each variable's range.
    pub const RANGE: usize = 4;

    // The bytes of the buffer for each variable.
    pub const BYTES: usize = 2;

    // The constants of the code are those of the specification.
    pub fn quoted()
        ensures range { Asks.RANGE ≡ range_bytes }
        ensures bytes { Asks.BYTES ≡ least_bytes }
    {}
}

// What sweeps leave open, with memory for the tables.
fn finish_in(
    file: &[u8],
    counts: Counts,
    offsets: &mut [u16],
    masks: &mut [u32],
    lows: &[i64; Format::MAX_VARIABLES],
    highs: &[i64; Format::MAX_VARIABLES],
    others: &[i64; Format::MAX_VARIABLES],
    stops: &[i64; Format::MAX_VARIABLES],
    model: &mut [i64; Format::MAX_VARIABLES],
) -> Result<(), NoModel>
    requires accepted_as { AcceptedAs file.now counts }
    requires rules_in_bounds { (counts.rules ≤ length offsets.old) × (counts.rules ≤ length masks.old) }
    requires fits_ranges { FitsRanges file.now (valued lows.now) (valued highs.now) }
    requires at_others { AtOthers file.now (valued lows.now) (valued highs.now) others.now }
    requires at_stops { AtStops file.now (valued lows.now) (valued highs.now) stops.now }
    requires on_the_way { OnTheWay file.now (valued lows.now) (valued highs.now) (valued model.old) }
    requires model_len { length model.old ≡ max_variables }
    ensures model_len_2 { length model.new ≡ max_variables }
    ensures ends_bounded { EndsBounded file.now (valued lows.now) (valued highs.now) (valued model.new) result }
{
    set_masks(file, counts, lows, highs, offsets, masks);
    let cut = true;
    let source = Source {
        file,
        counts,
        offsets,
        masks,
        others,
        stops,
        cut,
    };
    settle(&source, model)
}

// The same, the tables made by size.
fn finish(
    file: &[u8],
    counts: Counts,
    lows: &[i64; Format::MAX_VARIABLES],
    highs: &[i64; Format::MAX_VARIABLES],
    others: &[i64; Format::MAX_VARIABLES],
    stops: &[i64; Format::MAX_VARIABLES],
    model: &mut [i64; Format::MAX_VARIABLES],
) -> Result<(), NoModel>
    requires accepted_as { AcceptedAs file.now counts }
    requires fits_ranges { FitsRanges file.now (valued lows.now) (valued highs.now) }
    requires at_others { AtOthers file.now (valued lows.now) (valued highs.now) others.now }
    requires at_stops { AtStops file.now (valued lows.now) (valued highs.now) stops.now }
    requires on_the_way { OnTheWay file.now (valued lows.now) (valued highs.now) (valued model.old) }
    requires model_len { length model.old ≡ max_variables }
    ensures model_len_2 { length model.new ≡ max_variables }
    ensures ends_bounded { EndsBounded file.now (valued lows.now) (valued highs.now) (valued model.new) result }
{
    if counts.rules <= Tables::FEW {
        let mut offsets = [0u16; Tables::FEW];
        let mut masks = [0u32; Tables::FEW];
        return finish_in(
            file,
            counts,
            &mut offsets,
            &mut masks,
            lows,
            highs,
            others,
            stops,
            model,
        );
    }
    let mut offsets = [0u16; Format::MAX_RULES];
    let mut masks = [0u32; Format::MAX_RULES];
    finish_in(
        file,
        counts,
        &mut offsets,
        &mut masks,
        lows,
        highs,
        others,
        stops,
        model,
    )
}

// From the starting ends to the bounds.
fn run(
    file: &[u8],
    counts: Counts,
    lows: &[i64; Format::MAX_VARIABLES],
    highs: &[i64; Format::MAX_VARIABLES],
    others: &[i64; Format::MAX_VARIABLES],
    stops: &[i64; Format::MAX_VARIABLES],
    model: &mut [i64; Format::MAX_VARIABLES],
) -> Result<(), NoModel>
    requires accepted_as { AcceptedAs file.now counts }
    requires fits_ranges { FitsRanges file.now (valued lows.now) (valued highs.now) }
    requires at_others { AtOthers file.now (valued lows.now) (valued highs.now) others.now }
    requires at_stops { AtStops file.now (valued lows.now) (valued highs.now) stops.now }
    requires by_index { (v : ℕ) → counts.variables ≤ v → valued model.old v ≡ valued lows.now v }
    requires model_len { length model.old ≡ max_variables }
    ensures model_len_2 { length model.new ≡ max_variables }
    ensures ends_bounded { EndsBounded file.now (valued lows.now) (valued highs.now) (valued model.new) result }
{
    let n = counts.variables;
    let mut sides = [0i64; Sides::LENGTH];
    start_sides(file, n, lows, others, &mut sides);
    free_heads(file, counts, lows, highs, stops, &mut sides);
    let full = true;
    let climbed = climb(file, counts, &mut sides, stops, full);
    values_of(file, n, &sides, model);
    match climbed {
        Some(ending) => ending,
        None => finish(file, counts, lows, highs, others, stops, model),
    }
}

// Ranges that fit: the bounds are written.
fn bound(
    file: &[u8],
    counts: Counts,
    lows: &[i64; Format::MAX_VARIABLES],
    highs: &[i64; Format::MAX_VARIABLES],
    buffer: &mut [u8],
)
    requires accepted_as { AcceptedAs file.now counts }
    requires fits_ranges { FitsRanges file.now (valued lows.now) (valued highs.now) }
    requires variables_in_bounds { least_bytes * counts.variables ≤ length buffer.old }
    ensures { (P : Program) → Accepts file.now P
        → BoundsWritten P (valued lows.now) (valued highs.now) buffer.old buffer.new }
{
    let n = counts.variables;
    let mut others = [0i64; Format::MAX_VARIABLES];
    let mut stops = [0i64; Format::MAX_VARIABLES];
    let mut model = [0i64; Format::MAX_VARIABLES];
    ranges::set_ends(file, n, lows, highs, &mut others, &mut stops);
    let _ = run(file, counts, lows, highs, &others, &stops, &mut model);
    write_values(&model, n, buffer);
}

// Ranges of the right length.
fn bound_ranges(file: &[u8], ranges: &[u8], buffer: &mut [u8], counts: Counts) -> Result<(), Denied>
    requires accepted_as { AcceptedAs file.now counts }
    requires ranges_len { length ranges.now ≡ range_bytes * counts.variables }
    ensures { BoundsCall file.now ranges.now buffer.old (answer_of result) buffer.new }
{
    let n = counts.variables;
    let mut lows = [0i64; Format::MAX_VARIABLES];
    let mut highs = [0i64; Format::MAX_VARIABLES];
    ranges::load(ranges, &mut lows, &mut highs);
    if !ranges::all_fit(file, n, &lows, &highs) {
        return Err(Denied::Ranges);
    }
    if buffer.len() < Asks::BYTES * n {
        return Err(Denied::Buffer);
    }
    bound(file, counts, &lows, &highs, buffer);
    Ok(())
}

// A file that is accepted with these counts.
fn bound_file(file: &[u8], ranges: &[u8], buffer: &mut [u8], counts: Counts) -> Result<(), Denied>
    requires { AcceptedAs file.now counts }
    ensures { BoundsCall file.now ranges.now buffer.old (answer_of result) buffer.new }
{
    if ranges.len() != Asks::RANGE * counts.variables {
        return Err(Denied::Assignment);
    }
    bound_ranges(file, ranges, buffer, counts)
}

// How far each founded variable can still be lifted inside the ranges, written from the buffer's first byte on, for every file, ranges and buffer.
pub fn bounds(file: &[u8], ranges: &[u8], buffer: &mut [u8]) -> Result<(), Denied>
    ensures { BoundsCall file.now ranges.now buffer.old (answer_of result) buffer.new }
{
    let counts = reader::read(file)?;
    bound_file(file, ranges, buffer, counts)
}
