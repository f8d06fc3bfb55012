// Targets are guessed, drawn in where they are not shown, and leapt to.
ghost use Rattle.std.specs.Prelude.{◌≡◌, ◌≤◌, length};
ghost use Rattle.format.specs.Limits.{max_variables};
ghost use Rattle.program.specs.Evaluable.{Small};
ghost use Rattle.program.specs.Reading.{AcceptedAs};
ghost use Rattle.tables.specs.Tabled.{row_words};
ghost use Rattle.run.specs.Sourced.{SomeRunBy};
ghost use Rattle.hastening.specs.Kept.{RunKeptBy};

use format::Format;
use guess::levels::level;
use guess::line::gather;
use guess::numbers::{copy, double};
use guess::strides::lengthen;
use guess::targets::{draw_in, highest, lower, open};
use run::Source;
use sets::Set;
use tables::Tables;
use targets::leaping::leap;

// The values leap to their targets where these are solved and shown; else nothing changes.
fn leap_if(
    solved: bool,
    source: &Source,
    readers: &[u64],
    model: &mut [i64; Format::MAX_VARIABLES],
    waiting: &mut [u64; Tables::ROW],
    line: &[usize; Format::MAX_VARIABLES],
    count: usize,
    target: &[i64; Format::MAX_VARIABLES],
    strides: &[i64; Format::MAX_VARIABLES],
) -> bool
    requires accepted_as { AcceptedAs source.now.file.now source.now.counts }
    requires some_run { SomeRunBy source.now readers.now model.old waiting.old }
    requires model_len { (length model.old ≡ max_variables) × (length target.now ≡ max_variables) × (length waiting.old ≡ row_words) }
    ensures model_len_2 { (length model.new ≡ max_variables) × (length waiting.new ≡ row_words) }
    ensures run_kept { RunKeptBy source.now readers.now model.old waiting.old model.new waiting.new }
{
    if !solved {
        return false;
    }
    leap(
        source, readers, model, waiting, line, count, target, strides,
    )
}

// How often the steps of a leap are doubled, how many they are at first, and from which on a leap is a far one.
#[derive(Drop)]
pub struct Tries {}

impl Tries {
    pub const MOST: usize = 12;

    pub const FEW: i64 = 8;

    pub const FAR: i64 = 16;
}

// Targets for the heads of the line are lowered, and the values leap to them where the rules show them. It answers the most steps of the leap; 0 where there is none.
fn leap_to(
    source: &Source,
    readers: &[u64],
    model: &mut [i64; Format::MAX_VARIABLES],
    waiting: &mut [u64; Tables::ROW],
    line: &[usize; Format::MAX_VARIABLES],
    heads: &[u8; Format::MAX_VARIABLES],
    count: usize,
    strides: &[i64; Format::MAX_VARIABLES],
    target: &mut [i64; Format::MAX_VARIABLES],
) -> i64
    requires accepted_as { AcceptedAs source.now.file.now source.now.counts }
    requires some_run { SomeRunBy source.now readers.now model.old waiting.old }
    requires model_len { (length model.old ≡ max_variables) × (length waiting.old ≡ row_words) × (count ≤ max_variables) }
    requires target_len { (length target.old ≡ max_variables) × Small target.old }
    ensures model_len_2 { (length model.new ≡ max_variables) × (length waiting.new ≡ row_words) }
    ensures target_len_2 { (length target.new ≡ max_variables) × Small target.new }
    ensures run_kept { RunKeptBy source.now readers.now model.old waiting.old model.new waiting.new }
{
    let solved = lower(source, line, count, model, strides, target);
    let rise = highest(heads, count, model, target);
    if rise < 2 {
        return 0;
    }
    if leap_if(
        solved, source, readers, model, waiting, line, count, target, strides,
    ) {
        return rise;
    }
    0
}

// The same, with targets that are at most so many steps from the values; only where some are further.
fn leap_by(
    source: &Source,
    readers: &[u64],
    model: &mut [i64; Format::MAX_VARIABLES],
    waiting: &mut [u64; Tables::ROW],
    line: &[usize; Format::MAX_VARIABLES],
    heads: &[u8; Format::MAX_VARIABLES],
    count: usize,
    strides: &[i64; Format::MAX_VARIABLES],
    first: &[i64; Format::MAX_VARIABLES],
    steps: i64,
    target: &mut [i64; Format::MAX_VARIABLES],
) -> i64
    requires accepted_as { AcceptedAs source.now.file.now source.now.counts }
    requires some_run { SomeRunBy source.now readers.now model.old waiting.old }
    requires model_len { (length model.old ≡ max_variables) × (length waiting.old ≡ row_words) × (count ≤ max_variables) }
    requires target_len { (length target.old ≡ max_variables) × Small target.old }
    ensures model_len_2 { (length model.new ≡ max_variables) × (length waiting.new ≡ row_words) }
    ensures target_len_2 { (length target.new ≡ max_variables) × Small target.new }
    ensures run_kept { RunKeptBy source.now readers.now model.old waiting.old model.new waiting.new }
{
    let n = source.counts.variables;
    copy(target, first, n);
    if highest(heads, count, model, target) <= steps {
        return 0;
    }
    draw_in(source.file, n, heads, count, steps, strides, model, target);
    leap_to(
        source, readers, model, waiting, line, heads, count, strides, target,
    )
}

// Leaps by few steps, then by twice as many, and so on while the rules show them. Whether one of them was far.
fn leap_by_doubles(
    source: &Source,
    readers: &[u64],
    model: &mut [i64; Format::MAX_VARIABLES],
    waiting: &mut [u64; Tables::ROW],
    line: &[usize; Format::MAX_VARIABLES],
    heads: &[u8; Format::MAX_VARIABLES],
    count: usize,
    strides: &[i64; Format::MAX_VARIABLES],
    first: &[i64; Format::MAX_VARIABLES],
    target: &mut [i64; Format::MAX_VARIABLES],
) -> bool
    requires accepted_as { AcceptedAs source.now.file.now source.now.counts }
    requires some_run { SomeRunBy source.now readers.now model.old waiting.old }
    requires model_len { (length model.old ≡ max_variables) × (length waiting.old ≡ row_words) × (count ≤ max_variables) }
    requires target_len { (length target.old ≡ max_variables) × Small target.old }
    ensures model_len_2 { (length model.new ≡ max_variables) × (length waiting.new ≡ row_words) }
    ensures run_kept { RunKeptBy source.now readers.now model.old waiting.old model.new waiting.new }
{
    let mut far = false;
    let mut steps = Tries::FEW;
    for _ in 0..Tries::MOST {
        let leapt = leap_by(
            source, readers, model, waiting, line, heads, count, strides, first, steps, target,
        );
        if leapt == 0 {
            return far;
        }
        far = far | (leapt >= Tries::FAR);
        steps = double(steps);
    }
    far
}

// Where the targets are not shown as they are: up to the level of the rules, or else by ever more steps. Whether the values leapt far.
fn leap_less(
    source: &Source,
    readers: &[u64],
    model: &mut [i64; Format::MAX_VARIABLES],
    waiting: &mut [u64; Tables::ROW],
    line: &[usize; Format::MAX_VARIABLES],
    heads: &[u8; Format::MAX_VARIABLES],
    count: usize,
    strides: &[i64; Format::MAX_VARIABLES],
    target: &mut [i64; Format::MAX_VARIABLES],
) -> bool
    requires accepted_as { AcceptedAs source.now.file.now source.now.counts }
    requires some_run { SomeRunBy source.now readers.now model.old waiting.old }
    requires model_len { (length model.old ≡ max_variables) × (length waiting.old ≡ row_words) × (count ≤ max_variables) }
    requires target_len { (length target.old ≡ max_variables) × Small target.old }
    ensures model_len_2 { (length model.new ≡ max_variables) × (length waiting.new ≡ row_words) }
    ensures run_kept { RunKeptBy source.now readers.now model.old waiting.old model.new waiting.new }
{
    let n = source.counts.variables;
    let mut first = [0i64; Format::MAX_VARIABLES];
    copy(&mut first, target, n);
    level(source, line, heads, count, model, target);
    let leapt = leap_to(
        source, readers, model, waiting, line, heads, count, strides, target,
    );
    if leapt > 0 {
        return leapt >= Tries::FAR;
    }
    leap_by_doubles(
        source, readers, model, waiting, line, heads, count, strides, &first, target,
    )
}

// Targets for the heads of the line, whose rules are to show them: as far as these go, or less far. Whether the values leapt far.
fn leap_on(
    source: &Source,
    readers: &[u64],
    model: &mut [i64; Format::MAX_VARIABLES],
    waiting: &mut [u64; Tables::ROW],
    line: &[usize; Format::MAX_VARIABLES],
    heads: &[u8; Format::MAX_VARIABLES],
    count: usize,
    strides: &[i64; Format::MAX_VARIABLES],
    target: &mut [i64; Format::MAX_VARIABLES],
) -> bool
    requires accepted_as { AcceptedAs source.now.file.now source.now.counts }
    requires some_run { SomeRunBy source.now readers.now model.old waiting.old }
    requires model_len { (length model.old ≡ max_variables) × (length waiting.old ≡ row_words) × (count ≤ max_variables) }
    requires target_len { (length target.old ≡ max_variables) × Small target.old }
    ensures model_len_2 { (length model.new ≡ max_variables) × (length waiting.new ≡ row_words) }
    ensures run_kept { RunKeptBy source.now readers.now model.old waiting.old model.new waiting.new }
{
    open(source, heads, count, model, target);
    let leapt = leap_to(
        source, readers, model, waiting, line, heads, count, strides, target,
    );
    if leapt > 0 {
        return leapt >= Tries::FAR;
    }
    if highest(heads, count, model, target) < 2 {
        return false;
    }
    leap_less(
        source, readers, model, waiting, line, heads, count, strides, target,
    )
}

// The values of the variables of a component that have risen, those at the places from `from` to `to` of the list, leap if they can; whether they leapt far.
pub fn leap_risen(
    source: &Source,
    readers: &[u64],
    model: &mut [i64; Format::MAX_VARIABLES],
    waiting: &mut [u64; Tables::ROW],
    list: &[u8; Format::MAX_VARIABLES],
    from: usize,
    to: usize,
    by: &[u16; Format::MAX_VARIABLES],
    risen: &[u64; Set::WORDS],
) -> bool
    requires accepted_as { AcceptedAs source.now.file.now source.now.counts }
    requires some_run { SomeRunBy source.now readers.now model.old waiting.old }
    requires model_len { (length model.old ≡ max_variables) × (length waiting.old ≡ row_words) }
    ensures model_len_2 { (length model.new ≡ max_variables) × (length waiting.new ≡ row_words) }
    ensures run_kept { RunKeptBy source.now readers.now model.old waiting.old model.new waiting.new }
{
    let mut line = [0usize; Format::MAX_VARIABLES];
    let mut heads = [0u8; Format::MAX_VARIABLES];
    let mut target = [0i64; Format::MAX_VARIABLES];
    let mut strides = [0i64; Format::MAX_VARIABLES];
    let count = gather(list, from, to, by, risen, &mut line, &mut heads);
    lengthen(source, &line, &heads, count, &mut strides);
    leap_on(
        source,
        readers,
        model,
        waiting,
        &line,
        &heads,
        count,
        &strides,
        &mut target,
    )
}
