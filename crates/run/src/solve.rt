// The least model, reached by raising one head after the other.
ghost use Rattle.std.specs.Prelude.{◌≡◌, ◌||◌, ℕ, ◌+◌, ◌*◌, ◌<◌, ◌≤◌, length};
ghost use Rattle.format.specs.Limits.{max_variables, max_rules};
ghost use Rattle.words.specs.Bit.{word_bits, has};
ghost use Rattle.program.specs.Program.{Program};
ghost use Rattle.meaning.specs.Reduct.{Reckoning};
ghost use Rattle.run.specs.Running.{Stored, Lifted, EndsWith};
ghost use Rattle.run.specs.Sourced.{RunningBy, SomeRunBy};
ghost use Rattle.tables.specs.Tabled.{readers_words, row_words};
ghost use Rattle.program.specs.Readings.{Valuation, valued};

use crate::{NoModel, Source, demands};
use format::Format;
use parts::variables;
use program::Variable;
use tables::Tables;

// The set takes in the words from `start` to the list's end, which are not more than its own.
fn join_rest(waiting: &mut [u64; Tables::ROW], readers: &[u64], start: usize)
    requires waiting_len { length waiting.old ≡ row_words }
    requires start_le_readers_words { (start ≤ readers_words) × (length readers.now ≤ start + row_words) }
    ensures waiting_len_2 { length waiting.new ≡ row_words }
    ensures by_index { (i : ℕ) → has waiting.new i ≡ (has waiting.old i || has readers.now (word_bits * start + i)) }
{
    let n = readers.len().saturating_sub(start);
    for t in 0..n {
        let w = readers[start + t];
        waiting[t] = waiting[t] | w;
    }
}

// The set takes in the readers of x: a row, or the part of one, past the list's end has none.
pub fn join_readers(waiting: &mut [u64; Tables::ROW], readers: &[u64], x: usize)
    requires waiting_len { length waiting.old ≡ row_words }
    requires x_lt_max_variables { x < max_variables }
    ensures waiting_len_2 { length waiting.new ≡ row_words }
    ensures by_index { (i : ℕ) → i < max_rules → has waiting.new i ≡ (has waiting.old i || has readers.now (max_rules * x + i)) }
{
    let start = x * Tables::ROW;
    if readers.len() < start + Tables::ROW {
        join_rest(waiting, readers, start);
        return;
    }
    words::join_bits(waiting, &readers[start..start + Tables::ROW]);
}

// The head, whose variable is x, gets the value a; or a is past its far end, and nothing changes.
fn store(x: Variable, head: u8, a: i64, model: &mut [i64; Format::MAX_VARIABLES]) -> bool
    requires { length model.old ≡ max_variables }
    ensures model_len { length model.new ≡ max_variables }
    ensures stored { Stored x head a model.old model.new result }
{
    if x.is_before(x.far(), a) {
        return false;
    }
    model[format::wide(head)] = a;
    true
}

// The head, whose variable is x, gets the value a, and its readers join the set; or a is past its far end, and nothing changes.
pub fn raise(
    x: Variable,
    readers: &[u64],
    head: u8,
    a: i64,
    model: &mut [i64; Format::MAX_VARIABLES],
    waiting: &mut [u64; Tables::ROW],
) -> bool
    requires model_len { length model.old ≡ max_variables }
    requires waiting_len { length waiting.old ≡ row_words }
    ensures model_len_2 { length model.new ≡ max_variables }
    ensures waiting_len_2 { length waiting.new ≡ row_words }
    ensures lifted { Lifted x readers.now head a model.old model.new waiting.old waiting.new result }
{
    if !store(x, head, a, model) {
        return false;
    }
    join_readers(waiting, readers, format::wide(head));
    true
}

// The values reach the least model, or some rule asks for more than its head's range has. Positions whose bit is set in a rule's mask are read in the model, all
// others in `others`; with `cut` what is given to a head stops at its value in `stops`.
pub fn solve(
    source: &Source,
    readers: &[u64],
    model: &mut [i64; Format::MAX_VARIABLES],
    waiting: &mut [u64; Tables::ROW],
) -> Result<(), NoModel>
    requires some_run { SomeRunBy source.now readers.now model.old waiting.old }
    requires model_len { length model.old ≡ max_variables }
    requires waiting_len { length waiting.old ≡ row_words }
    ensures model_len_2 { length model.new ≡ max_variables }
    ensures waiting_len_2 { length waiting.new ≡ row_words }
    ensures ends_with { (P : Program) (R : Reckoning) (θ : Valuation)
        → RunningBy source.now P R θ readers.now model.old waiting.old
        → EndsWith P R θ (valued model.new) result }
{
    loop {
        let next = demands::step(source, model, waiting);
        let Some((i, a)) = next else {
            return Ok(());
        };
        let head = demands::head_of(source.file, source.offsets, i);
        let x = variables::variable(source.file, head);
        if !raise(x, readers, head, a, model, waiting) {
            return Err(NoModel);
        }
    }
}
