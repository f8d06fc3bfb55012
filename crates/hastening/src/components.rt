// Components, one after the other, each by laps over its rules and leaps.
ghost use Rattle.std.specs.Prelude.{◌≡◌, ◌≤◌, ◌<◌, length};
ghost use Rattle.format.specs.Limits.{max_variables};
ghost use Rattle.words.specs.Bit.{word_count};
ghost use Rattle.program.specs.Reading.{AcceptedAs};
ghost use Rattle.tables.specs.Tabled.{row_words};
ghost use Rattle.run.specs.Sourced.{SomeRunBy};
ghost use Rattle.hastening.specs.Kept.{RunKeptBy, RunLappedBy};

use crate::leaps::leap_risen;
use format::Format;
use laps::lap;
use run::{NoModel, Source};
use sequence::noted;
use sets::Set;
use tables::Tables;

// The laps after which a leap is tried, and how many were made since the last try.
#[derive(Drop)]
pub struct Pace {
    pub wait: usize,
    pub since: usize,
}

impl Pace {
    // The first try comes after two laps.
    pub const FIRST: usize = 2;

    // The most laps over a component.
    pub const LAPS: usize = 65536;
}

// After a far leap the next try comes after half as many laps, else after twice as many, but for a component of n variables after n at most.
fn next_wait(wait: usize, far: bool, n: usize) -> usize
    ensures { result ≤ 65536 }
{
    let laps = wait % Format::MAX_RULES;
    if far {
        return (laps + 1) / 2;
    }
    if 2 * laps < n {
        return 2 * laps;
    }
    n % Pace::LAPS
}

// How many places there are from one to another; 2 at least.
fn places(from: usize, to: usize) -> usize {
    if to < 2 {
        return 2;
    }
    if from > to - 2 {
        return 2;
    }
    to - from
}

// No variable has risen.
fn clear(risen: &mut [u64; Set::WORDS])
    requires { length risen.old ≡ word_count }
    ensures { length risen.new ≡ word_count }
{
    risen.fill(0);
}

// After a lap: a leap is tried if it is time.
fn pause(
    source: &Source,
    readers: &[u64],
    model: &mut [i64; Format::MAX_VARIABLES],
    waiting: &mut [u64; Tables::ROW],
    list: &[u8; Format::MAX_VARIABLES],
    from: usize,
    to: usize,
    by: &[u16; Format::MAX_VARIABLES],
    risen: &mut [u64; Set::WORDS],
    pace: Pace,
) -> Pace
    requires accepted_as { AcceptedAs source.now.file.now source.now.counts }
    requires some_run { SomeRunBy source.now readers.now model.old waiting.old }
    requires model_len { (length model.old ≡ max_variables) × (length waiting.old ≡ row_words) × (length risen.old ≡ word_count) }
    ensures model_len_2 { (length model.new ≡ max_variables) × (length waiting.new ≡ row_words) × (length risen.new ≡ word_count) }
    ensures run_kept { RunKeptBy source.now readers.now model.old waiting.old model.new waiting.new }
{
    let wait = pace.wait;
    let since = pace.since;
    if since < wait {
        let laps = since + 1;
        return Pace { wait, since: laps };
    }
    let n = places(from, to);
    let far = leap_risen(source, readers, model, waiting, list, from, to, by, risen);
    clear(risen);
    Pace {
        wait: next_wait(wait, far, n),
        since: 1,
    }
}

// Laps over the rules at the places from `start` to `end` of the order, whose heads are the variables at those from `from` to `to` of the list, until one raises
// nothing.
fn settle_part(
    source: &Source,
    readers: &[u64],
    model: &mut [i64; Format::MAX_VARIABLES],
    waiting: &mut [u64; Tables::ROW],
    order: &[u16],
    start: usize,
    end: usize,
    list: &[u8; Format::MAX_VARIABLES],
    from: usize,
    to: usize,
    by: &mut [u16; Format::MAX_VARIABLES],
) -> Result<bool, NoModel>
    requires accepted_as { AcceptedAs source.now.file.now source.now.counts }
    requires some_run { SomeRunBy source.now readers.now model.old waiting.old }
    requires model_len { (length model.old ≡ max_variables) × (length waiting.old ≡ row_words) × (length by.old ≡ max_variables) }
    ensures model_len_2 { (length model.new ≡ max_variables) × (length waiting.new ≡ row_words) × (length by.new ≡ max_variables) }
    ensures run_lapped { RunLappedBy source.now readers.now model.old waiting.old model.new waiting.new result }
{
    let mut risen = [0u64; Set::WORDS];
    let mut pace = Pace {
        wait: Pace::FIRST,
        since: 1,
    };
    for _ in 0..Pace::LAPS {
        let raised = lap(
            source, readers, order, start, end, model, waiting, by, &mut risen,
        )?;
        if !raised {
            return Ok(false);
        }
        pace = pause(
            source, readers, model, waiting, list, from, to, by, &mut risen, pace,
        );
    }
    Ok(true)
}

// Each of so many components: `lasts` has the places after their last variables, `ends` those after their last rules.
pub fn hasten(
    source: &Source,
    readers: &[u64],
    model: &mut [i64; Format::MAX_VARIABLES],
    waiting: &mut [u64; Tables::ROW],
    order: &[u16],
    ends: &[u16; Format::MAX_VARIABLES],
    list: &[u8; Format::MAX_VARIABLES],
    lasts: &[u16; Format::MAX_VARIABLES],
    parts: usize,
) -> Result<bool, NoModel>
    requires accepted_as { AcceptedAs source.now.file.now source.now.counts }
    requires some_run { SomeRunBy source.now readers.now model.old waiting.old }
    requires model_len { (length model.old ≡ max_variables) × (length waiting.old ≡ row_words) }
    ensures model_len_2 { (length model.new ≡ max_variables) × (length waiting.new ≡ row_words) }
    ensures run_lapped { RunLappedBy source.now readers.now model.old waiting.old model.new waiting.new result }
{
    let mut by = [0u16; Format::MAX_VARIABLES];
    let mut start = 0;
    let mut from = 0;
    for p in 0..parts {
        let end = noted(ends, p);
        let to = noted(lasts, p);
        settle_part(
            source, readers, model, waiting, order, start, end, list, from, to, &mut by,
        )?;
        start = end;
        from = to;
    }
    Ok(false)
}
