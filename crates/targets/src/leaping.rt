// The leap of the values to targets.
ghost use Rattle.std.specs.Prelude.{◌≡◌, ◌≤◌, length};
ghost use Rattle.format.specs.Limits.{max_variables};
ghost use Rattle.program.specs.Program.{Program, variables_at};
ghost use Rattle.program.specs.Reading.{AcceptedAs};
ghost use Rattle.program.specs.Readings.{Valuation};
ghost use Rattle.meaning.specs.Reduct.{Reckoning};
ghost use Rattle.meaning.proofs.Steps.{gap};
ghost use Rattle.tables.specs.Tabled.{row_words};
ghost use Rattle.run.specs.Sourced.{RunningBy, SomeRunBy};

use crate::{aims, landing, lifting};
use format::Format;
use run::Source;
use tables::Tables;

// How many rules of a line are read.
fn line_length(count: usize) -> usize
    ensures { result ≤ max_variables }
{
    if count < Format::MAX_VARIABLES {
        count
    } else {
        Format::MAX_VARIABLES
    }
}

// The values of the variables become their targets, where the first `count` rules of the line, 256 at most, show that every model is at or after them; else nothing changes.
// Targets, line and strides are advice, and may be any numbers.
pub fn leap(
    source: &Source,
    readers: &[u64],
    model: &mut [i64; Format::MAX_VARIABLES],
    waiting: &mut [u64; Tables::ROW],
    line: &[usize; Format::MAX_VARIABLES],
    count: usize,
    target: &[i64; Format::MAX_VARIABLES],
    strides: &[i64; Format::MAX_VARIABLES],
) -> bool
    requires accepted_as { AcceptedAs source.now.file.now source.now.counts }
    requires some_run { SomeRunBy source.now readers.now model.old waiting.old }
    requires model_len { (length model.old ≡ max_variables) × (length target.now ≡ max_variables) }
    requires waiting_len { length waiting.old ≡ row_words }
    ensures model_len_2 { length model.new ≡ max_variables }
    ensures waiting_len_2 { length waiting.new ≡ row_words }
    ensures running { (P : Program) (R : Reckoning) (θ : Valuation)
        → RunningBy source.now P R θ readers.now model.old waiting.old
        → RunningBy source.now P R θ readers.now model.new waiting.new }
    ensures model_bound { gap (variables_at source.now.file.now max_variables) model.new ≤ gap (variables_at source.now.file.now max_variables) model.old }
{
    let n = source.counts.variables;
    let most = line_length(count);
    let mut aims = [0i64; Format::MAX_VARIABLES];
    aims::draw_back(source, model, target, strides, &mut aims);
    lifting::lift_all(source, line, most, model, target, strides, &mut aims);
    if !aims::arrived(n, &aims, target) {
        return false;
    }
    landing::land(readers, n, &aims, model, waiting);
    true
}
