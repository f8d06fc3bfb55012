// From values on the way to the least model: components in order, laps and leaps, and then whatever still waits.
#![tactic(auto)]

ghost use Rattle.std.specs.Prelude.{◌≡◌, false, ℕ, ◌*◌, ◌≤◌, length};
ghost use Rattle.format.specs.Limits.{max_variables};
ghost use Rattle.words.specs.Bit.{has};
ghost use Rattle.program.specs.Program.{Program};
ghost use Rattle.program.specs.Reading.{AcceptedAs};
ghost use Rattle.program.specs.Readings.{Valuation, valued};
ghost use Rattle.meaning.specs.Reduct.{Reckoning};
ghost use Rattle.tables.specs.Tabled.{row_words, narrow_variables, middle_variables};
ghost use Rattle.run.specs.Running.{EndsWith};
ghost use Rattle.run.specs.Sourced.{UnderwayBy, SomeWayBy};

use format::Format;
use guess::live::keep_live;
use hastening::components::hasten;
use run::solve::solve;
use run::{NoModel, Source};
use sequence::{parts_by, sequence};
use tables::{Tables, fill_readers};

// From values on the way to the least model, by this order and with these readers, empty yet: every rule waits, components come one after the other, and what still
// waits then is looked at from the lowest rule on.
fn follow(
    source: &Source,
    model: &mut [i64; Format::MAX_VARIABLES],
    order: &[u16],
    ends: &[u16; Format::MAX_VARIABLES],
    list: &[u8; Format::MAX_VARIABLES],
    lasts: &[u16; Format::MAX_VARIABLES],
    parts: usize,
    readers: &mut [u64],
) -> Result<(), NoModel>
    requires accepted_as { AcceptedAs source.now.file.now source.now.counts }
    requires some_way { SomeWayBy source.now model.old }
    requires model_len { length model.old ≡ max_variables }
    requires variables_in_bounds { row_words * source.now.counts.variables ≤ length readers.old }
    requires by_index { (n : ℕ) → has readers.old n ≡ false }
    ensures model_len_2 { length model.new ≡ max_variables }
    ensures ends_with { (P : Program) (R : Reckoning) (θ : Valuation)
        → UnderwayBy source.now P R θ model.old
        → EndsWith P R θ (valued model.new) result }
{
    let rules = source.counts.rules;
    let mut waiting = [0u64; Tables::ROW];
    fill_readers(
        source.file,
        source.counts,
        source.offsets,
        source.masks,
        readers,
    );
    words::fill_bits(&mut waiting, rules);
    hasten(
        source,
        readers,
        model,
        &mut waiting,
        order,
        ends,
        list,
        lasts,
        parts,
    )?;
    solve(source, readers, model, &mut waiting)
}

// The same, the rules first put in order: by the live rules, and inside each component as another list has its variables.
fn settle_along(
    source: &Source,
    model: &mut [i64; Format::MAX_VARIABLES],
    live: &[u64; Tables::ROW],
    finer: &[u8; Format::MAX_VARIABLES],
    order: &mut [u16],
    readers: &mut [u64],
) -> Result<(), NoModel>
    requires accepted_as { AcceptedAs source.now.file.now source.now.counts }
    requires some_way { SomeWayBy source.now model.old }
    requires model_len { length model.old ≡ max_variables }
    requires variables_in_bounds { row_words * source.now.counts.variables ≤ length readers.old }
    requires by_index { (n : ℕ) → has readers.old n ≡ false }
    ensures model_len_2 { length model.new ≡ max_variables }
    ensures ends_with { (P : Program) (R : Reckoning) (θ : Valuation)
        → UnderwayBy source.now P R θ model.old
        → EndsWith P R θ (valued model.new) result }
{
    let n = source.counts.variables;
    let rules = source.counts.rules;
    let mut list = [0u8; Format::MAX_VARIABLES];
    let mut lasts = [0u16; Format::MAX_VARIABLES];
    let mut ends = [0u16; Format::MAX_VARIABLES];
    let parts = sequence(
        source.file,
        n,
        rules,
        source.offsets,
        source.masks,
        live,
        finer,
        &mut list,
        &mut lasts,
        order,
        &mut ends,
    );
    follow(source, model, order, &ends, &list, &lasts, parts, readers)
}

// The same, the live rules found first, and the memory of the order made by size.
fn settle_with(
    source: &Source,
    model: &mut [i64; Format::MAX_VARIABLES],
    readers: &mut [u64],
) -> Result<(), NoModel>
    requires accepted_as { AcceptedAs source.now.file.now source.now.counts }
    requires some_way { SomeWayBy source.now model.old }
    requires model_len { length model.old ≡ max_variables }
    requires variables_in_bounds { row_words * source.now.counts.variables ≤ length readers.old }
    requires by_index { (n : ℕ) → has readers.old n ≡ false }
    ensures model_len_2 { length model.new ≡ max_variables }
    ensures ends_with { (P : Program) (R : Reckoning) (θ : Valuation)
        → UnderwayBy source.now P R θ model.old
        → EndsWith P R θ (valued model.new) result }
{
    let n = source.counts.variables;
    let rules = source.counts.rules;
    let mut live = [0u64; Tables::ROW];
    let mut finer = [0u8; Format::MAX_VARIABLES];
    let mut lasts = [0u16; Format::MAX_VARIABLES];
    keep_live(source, true, model, &mut live);
    parts_by(
        source.file,
        n,
        rules,
        source.offsets,
        source.masks,
        &live,
        &mut finer,
        &mut lasts,
    );
    keep_live(source, false, model, &mut live);
    if rules <= Tables::FEW {
        let mut order = [0u16; Tables::FEW];
        return settle_along(source, model, &live, &finer, &mut order, readers);
    }
    let mut order = [0u16; Format::MAX_RULES];
    settle_along(source, model, &live, &finer, &mut order, readers)
}

// The same, with readers for few variables.
fn settle_few(source: &Source, model: &mut [i64; Format::MAX_VARIABLES]) -> Result<(), NoModel>
    requires accepted_as { AcceptedAs source.now.file.now source.now.counts }
    requires some_way { SomeWayBy source.now model.old }
    requires model_len { length model.old ≡ max_variables }
    requires variables_le_narrow_variables { source.now.counts.variables ≤ narrow_variables }
    ensures model_len_2 { length model.new ≡ max_variables }
    ensures ends_with { (P : Program) (R : Reckoning) (θ : Valuation)
        → UnderwayBy source.now P R θ model.old
        → EndsWith P R θ (valued model.new) result }
{
    let mut readers = [0u64; Tables::NARROW * Tables::ROW];
    settle_with(source, model, &mut readers)
}

// The same, with readers for a middling number of variables.
fn settle_middle(source: &Source, model: &mut [i64; Format::MAX_VARIABLES]) -> Result<(), NoModel>
    requires accepted_as { AcceptedAs source.now.file.now source.now.counts }
    requires some_way { SomeWayBy source.now model.old }
    requires model_len { length model.old ≡ max_variables }
    requires variables_le_middle_variables { source.now.counts.variables ≤ middle_variables }
    ensures model_len_2 { length model.new ≡ max_variables }
    ensures ends_with { (P : Program) (R : Reckoning) (θ : Valuation)
        → UnderwayBy source.now P R θ model.old
        → EndsWith P R θ (valued model.new) result }
{
    let mut readers = [0u64; Tables::MIDDLE * Tables::ROW];
    settle_with(source, model, &mut readers)
}

// The same, with readers for the most variables.
fn settle_most(source: &Source, model: &mut [i64; Format::MAX_VARIABLES]) -> Result<(), NoModel>
    requires accepted_as { AcceptedAs source.now.file.now source.now.counts }
    requires some_way { SomeWayBy source.now model.old }
    requires model_len { length model.old ≡ max_variables }
    ensures model_len_2 { length model.new ≡ max_variables }
    ensures ends_with { (P : Program) (R : Reckoning) (θ : Valuation)
        → UnderwayBy source.now P R θ model.old
        → EndsWith P R θ (valued model.new) result }
{
    let mut readers = [0u64; Tables::READERS];
    settle_with(source, model, &mut readers)
}

// From values on the way to the least model.
pub fn settle(source: &Source, model: &mut [i64; Format::MAX_VARIABLES]) -> Result<(), NoModel>
    requires accepted_as { AcceptedAs source.now.file.now source.now.counts }
    requires some_way { SomeWayBy source.now model.old }
    requires model_len { length model.old ≡ max_variables }
    ensures model_len_2 { length model.new ≡ max_variables }
    ensures ends_with { (P : Program) (R : Reckoning) (θ : Valuation)
        → UnderwayBy source.now P R θ model.old
        → EndsWith P R θ (valued model.new) result }
{
    let n = source.counts.variables;
    if n <= Tables::NARROW {
        return settle_few(source, model);
    }
    if n <= Tables::MIDDLE {
        return settle_middle(source, model);
    }
    settle_most(source, model)
}
