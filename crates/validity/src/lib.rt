// Whether a file is valid: no rule that is not idle has a mixed variable in its head's component.
#![tactic(auto)]

pub mod rules;

ghost use Rattle.std.specs.Prelude.{◌≡◌, ◌⊎◌, true, ℕ, ◌<◌, length};
ghost use Rattle.words.specs.Bit.{has};
ghost use Rattle.walks.specs.Walk.{Rounds};
ghost use Rattle.reach.specs.Rows.{row_has};
ghost use Rattle.reach.specs.Stepping.{Lent};
ghost use Rattle.reach.specs.Closing.{Closed};
ghost use Rattle.program.specs.Reading.{Whole};
ghost use Rattle.fields.specs.Scanning.{Counted};
ghost use Rattle.validity.specs.Judging.{Judges};

use format::Format;
use program::Counts;
use reach::{Rows, close, close_rows};
use sets::Set;

// The rows of the set's variables hold what these reach over one edge or more. If the set has over an eighth of the variables, all rows are closed by
// rounds: where the variables are one ring that takes less time.
fn close_for(rows: &mut [u64], variables: usize, of: Set)
    requires { Lent rows.old variables × ((v : ℕ) → has of.words v ≡ true → v < variables) }
    ensures rows_len_unchanged { length rows.new ≡ length rows.old }
    ensures rounds { Rounds (row_has rows.old) (row_has rows.new) variables
        ⊎ Closed (row_has rows.old) (row_has rows.new) variables (has of.words) }
{
    let many = of.count() as usize;
    if variables / 8 < many {
        close(rows, variables);
        return;
    }
    close_rows(rows, variables, of);
}

// A file whose fields passed, with its counts.
pub fn judge(file: &[u8], counts: Counts) -> Option<usize>
    requires { Counted file.now counts }
    ensures { (k : ℕ) → Whole file.now k → Judges file.now k result }
{
    let acting = rules::acting_variables(file, counts);
    if let None = acting.next(0) {
        return None;
    }
    let n = counts.variables;
    let mut rows = [0u64; Rows::LENGTH];
    let mut values = [0i64; Format::MAX_VARIABLES];
    rules::mark_edges(&mut rows, &mut values, file, counts);
    close_for(&mut rows, n, acting);
    rules::first_offending(&rows, &mut values, file, counts)
}
