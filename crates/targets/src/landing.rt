// The values become the aims that have arrived.
ghost use Rattle.std.specs.Prelude.{◌≡◌, Bool, List, ℕ, ◌<◌, ◌≤◌, ℤ, length};
ghost use Rattle.format.specs.Limits.{max_variables};
ghost use Rattle.program.specs.Program.{Program, variables_at};
ghost use Rattle.program.specs.Readings.{Valuation};
ghost use Rattle.meaning.specs.Reduct.{Reckoning};
ghost use Rattle.meaning.proofs.Steps.{gap};
ghost use Rattle.tables.specs.Tabled.{row_words};
ghost use Rattle.targets.specs.Aims.{PlacedAt, Landing};

use format::Format;
use run::solve;
use tables::Tables;

// Variable v gets this value, and where it is another one the rules that read v at a kept position join the set.
fn place(
    readers: &[u64],
    v: usize,
    value: i64,
    model: &mut [i64; Format::MAX_VARIABLES],
    waiting: &mut [u64; Tables::ROW],
)
    requires v_lt_max_variables { v < max_variables }
    requires model_len { length model.old ≡ max_variables }
    requires waiting_len { length waiting.old ≡ row_words }
    ensures model_len_2 { length model.new ≡ max_variables }
    ensures waiting_len_2 { length waiting.new ≡ row_words }
    ensures placed_at { PlacedAt readers.now v value model.old model.new waiting.old waiting.new }
{
    let before = model[v];
    if before == value {
        return;
    }
    model[v] = value;
    solve::join_readers(waiting, readers, v);
}

// The value of every variable becomes its aim.
pub fn land(
    readers: &[u64],
    variables: usize,
    aims: &[i64; Format::MAX_VARIABLES],
    model: &mut [i64; Format::MAX_VARIABLES],
    waiting: &mut [u64; Tables::ROW],
)
    requires variables_le_max_variables { (variables ≤ max_variables) × (length model.old ≡ max_variables) }
    requires waiting_len { length waiting.old ≡ row_words }
    ensures model_len { length model.new ≡ max_variables }
    ensures waiting_len_2 { length waiting.new ≡ row_words }
    ensures by_index { (s : List ℕ) (P : Program) (R : Reckoning) (θ : Valuation) (offsets masks : List ℕ) (others stops : List ℤ) (cut : Bool)
        → Landing s P R θ offsets masks readers.now others stops cut aims.now model.old waiting.old
        → Landing s P R θ offsets masks readers.now others stops cut aims.now model.new waiting.new
        × (gap (variables_at s max_variables) model.new ≤ gap (variables_at s max_variables) model.old) }
{
    for v in 0..variables {
        let aim = aims[v];
        place(readers, v, aim, model, waiting);
    }
}
