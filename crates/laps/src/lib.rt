// Rules looked at in any order, and those that raised a head last.
#![tactic(auto)]

ghost use Rattle.std.specs.Prelude.{◌≡◌, ◌≤◌, ◌<◌, length};
ghost use Rattle.format.specs.Limits.{max_variables, max_rules};
ghost use Rattle.words.specs.Bit.{word_count};
ghost use Rattle.program.specs.Program.{Program, variables_at};
ghost use Rattle.program.specs.Readings.{Valuation};
ghost use Rattle.meaning.specs.Reduct.{Reckoning};
ghost use Rattle.meaning.proofs.Steps.{gap};
ghost use Rattle.tables.specs.Tabled.{row_words};
ghost use Rattle.run.specs.Sourced.{RunningBy, SomeRunBy};
ghost use Rattle.laps.specs.Laps.{AfterTryBy, AfterLapBy};

use format::Format;
use parts::variables;
use run::solve::raise;
use run::{NoModel, Source, demands};
use sets::Set;
use tables::Tables;

// Rule i is looked at if it waits, and leaves the set.
fn attempt(
    source: &Source,
    readers: &[u64],
    i: usize,
    model: &mut [i64; Format::MAX_VARIABLES],
    waiting: &mut [u64; Tables::ROW],
) -> Result<Option<u8>, NoModel>
    requires some_run { SomeRunBy source.now readers.now model.old waiting.old }
    requires i_lt_max_rules { (i < max_rules) × (length model.old ≡ max_variables) × (length waiting.old ≡ row_words) }
    ensures model_len { (length model.new ≡ max_variables) × (length waiting.new ≡ row_words) }
    ensures model_bound { gap (variables_at source.now.file.now max_variables) model.new ≤ gap (variables_at source.now.file.now max_variables) model.old }
    ensures after_try { (P : Program) (R : Reckoning) (θ : Valuation)
        → RunningBy source.now P R θ readers.now model.old waiting.old
        → AfterTryBy source.now P R θ readers.now model.new waiting.new result }
{
    if !words::has_bit(waiting, i) {
        return Ok(None);
    }
    words::drop_bit(waiting, i);
    let found = demands::look(source, i, model);
    let Some(a) = found else {
        return Ok(None);
    };
    let head = demands::head_of(source.file, source.offsets, i);
    let x = variables::variable(source.file, head);
    if !raise(x, readers, head, a, model, waiting) {
        return Err(NoModel);
    }
    Ok(Some(head))
}

fn wide(x: u16) -> usize {
    x as usize
}

// The rule at place k of an order; rule 0 where there is no such place.
fn rule_at(order: &[u16], k: usize) -> usize
    ensures { result < max_rules }
{
    if k < order.len() {
        return wide(order[k]) % Format::MAX_RULES;
    }
    0
}

// Notes that rule i raised its head last, if it did, and answers whether it did.
fn note(
    tried: Option<u8>,
    i: usize,
    by: &mut [u16; Format::MAX_VARIABLES],
    risen: &mut [u64; Set::WORDS],
) -> bool
    requires { (length by.old ≡ max_variables) × (length risen.old ≡ word_count) }
    ensures { (length by.new ≡ max_variables) × (length risen.new ≡ word_count) }
{
    let Some(head) = tried else {
        return false;
    };
    let v = format::wide(head);
    by[v] = (i % 65536) as u16;
    words::add_bit(risen, v);
    true
}

// The rules at the places from `from` to `to` of an order, those that wait, one after the other. `by` has for each risen variable the rule that raised it last.
pub fn lap(
    source: &Source,
    readers: &[u64],
    order: &[u16],
    from: usize,
    to: usize,
    model: &mut [i64; Format::MAX_VARIABLES],
    waiting: &mut [u64; Tables::ROW],
    by: &mut [u16; Format::MAX_VARIABLES],
    risen: &mut [u64; Set::WORDS],
) -> Result<bool, NoModel>
    requires some_run { SomeRunBy source.now readers.now model.old waiting.old }
    requires model_len { (length model.old ≡ max_variables) × (length waiting.old ≡ row_words) }
    requires by_len { (length by.old ≡ max_variables) × (length risen.old ≡ word_count) }
    ensures model_len_2 { (length model.new ≡ max_variables) × (length waiting.new ≡ row_words) }
    ensures by_len_2 { (length by.new ≡ max_variables) × (length risen.new ≡ word_count) }
    ensures model_bound { gap (variables_at source.now.file.now max_variables) model.new ≤ gap (variables_at source.now.file.now max_variables) model.old }
    ensures after_lap { (P : Program) (R : Reckoning) (θ : Valuation)
        → RunningBy source.now P R θ readers.now model.old waiting.old
        → AfterLapBy source.now P R θ readers.now model.new waiting.new result }
{
    let mut raised = false;
    for k in from..to {
        let i = rule_at(order, k);
        let tried = attempt(source, readers, i, model, waiting)?;
        let rose = note(tried, i, by, risen);
        raised = raised | rose;
    }
    Ok(raised)
}
