// The least model: sweeps over the rules as they stand, and where these do not settle it, components in order, laps and leaps.
#![tactic(auto)]

ghost use Rattle.std.specs.Prelude.{◌≡◌, true, ℕ, ◌<◌, ◌≤◌, length};
ghost use Rattle.format.specs.Limits.{max_variables};
ghost use Rattle.program.specs.Program.{Program};
ghost use Rattle.program.specs.Reading.{AcceptedAs, Accepts};
ghost use Rattle.program.specs.Readings.{valued};
ghost use Rattle.meaning.specs.Founded.{Within};
ghost use Rattle.meaning.specs.Reduct.{reduct, system};
ghost use Rattle.meaning.specs.Stable.{RuleMet};
ghost use Rattle.meaning.proofs.Theory.{Progress};
ghost use Rattle.sided.specs.Sides.{sides_length};
ghost use Rattle.run.specs.Running.{EndsWith};
ghost use Rattle.ascent.specs.Level.{LevelPast};

use ascent::starts::{start_sides, values_of};
use ascent::sweeping::climb;
use format::Format;
use program::Counts;
use run::{NoModel, Source};
use settling::settle;
use sided::Sides;
use tables::{Tables, fill_tables};

// What sweeps leave open: from values on the way to the least model of the reduct, with memory for the tables.
fn finish_in(
    file: &[u8],
    counts: Counts,
    assigned: &[i64; Format::MAX_VARIABLES],
    offsets: &mut [u16],
    masks: &mut [u32],
    model: &mut [i64; Format::MAX_VARIABLES],
) -> Result<(), NoModel>
    requires accepted_as { AcceptedAs file.now counts }
    requires rules_in_bounds { (counts.rules ≤ length offsets.old) × (counts.rules ≤ length masks.old) }
    requires within { (P : Program) → Accepts file.now P → Within (system P) (valued assigned.now) }
    requires progress { (P : Program) → Accepts file.now P → Progress (system P) (valued assigned.now) (valued model.old) }
    requires model_len { length model.old ≡ max_variables }
    ensures model_len_2 { length model.new ≡ max_variables }
    ensures ends_with { (P : Program) → Accepts file.now P → EndsWith P (reduct P) (valued assigned.now) (valued model.new) result }
{
    fill_tables(file, counts, offsets, masks);
    let source = Source {
        file,
        counts,
        offsets,
        masks,
        others: assigned,
        stops: assigned,
        cut: false,
    };
    settle(&source, model)
}

// The same, the tables made by size.
fn finish(
    file: &[u8],
    counts: Counts,
    assigned: &[i64; Format::MAX_VARIABLES],
    model: &mut [i64; Format::MAX_VARIABLES],
) -> Result<(), NoModel>
    requires accepted_as { AcceptedAs file.now counts }
    requires within { (P : Program) → Accepts file.now P → Within (system P) (valued assigned.now) }
    requires progress { (P : Program) → Accepts file.now P → Progress (system P) (valued assigned.now) (valued model.old) }
    requires model_len { length model.old ≡ max_variables }
    ensures model_len_2 { length model.new ≡ max_variables }
    ensures ends_with { (P : Program) → Accepts file.now P → EndsWith P (reduct P) (valued assigned.now) (valued model.new) result }
{
    if counts.rules <= Tables::FEW {
        let mut offsets = [0u16; Tables::FEW];
        let mut masks = [0u32; Tables::FEW];
        return finish_in(file, counts, assigned, &mut offsets, &mut masks, model);
    }
    let mut offsets = [0u16; Format::MAX_RULES];
    let mut masks = [0u32; Format::MAX_RULES];
    finish_in(file, counts, assigned, &mut offsets, &mut masks, model)
}

// From the starting ends to the least model of the reduct. With `full` the assignment meets every rule. The sides are lent, and what stands there is overwritten.
pub fn run(
    file: &[u8],
    counts: Counts,
    assigned: &[i64; Format::MAX_VARIABLES],
    full: bool,
    sides: &mut [i64; Sides::LENGTH],
    model: &mut [i64; Format::MAX_VARIABLES],
) -> Result<(), NoModel>
    requires accepted_as { AcceptedAs file.now counts }
    requires within { (P : Program) → Accepts file.now P → Within (system P) (valued assigned.now) }
    requires rule_met { full ≡ true → (P : Program) → Accepts file.now P → (i : ℕ) → i < length P.rules → RuleMet P (valued assigned.now) i }
    requires level_past { LevelPast counts.variables (valued assigned.now) sides.old × (length sides.old ≡ sides_length) }
    requires by_index { (v : ℕ) → counts.variables ≤ v → valued model.old v ≡ valued assigned.now v }
    requires model_len { length model.old ≡ max_variables }
    ensures model_len_2 { length model.new ≡ max_variables }
    ensures ends_with { (P : Program) → Accepts file.now P → EndsWith P (reduct P) (valued assigned.now) (valued model.new) result }
{
    let n = counts.variables;
    start_sides(file, n, assigned, assigned, sides);
    let climbed = climb(file, counts, sides, assigned, full);
    values_of(file, n, sides, model);
    match climbed {
        Some(ending) => ending,
        None => finish(file, counts, assigned, model),
    }
}
