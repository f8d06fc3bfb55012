// The set that a report shows.
ghost use Rattle.std.specs.Prelude.{◌≡◌, false, ◌&&◌, ℕ, ◌*◌, ◌≤◌, ltb, length};
ghost use Rattle.format.specs.Limits.{max_variables};
ghost use Rattle.program.specs.Program.{variables_at, variable_in};
ghost use Rattle.words.specs.Bit.{has};
ghost use Rattle.program.specs.Tables.{any_below};
ghost use Rattle.program.specs.Variables.{from_above, short};
ghost use Rattle.program.specs.Readings.{valued};
ghost use Rattle.conditions.specs.Shortfall.{part_in, PartsAre};

use crate::members;
use format::Format;
use parts::variables;
use sets::Set;

// The founded variables whose value in the model comes before their assigned one.
pub fn short_set(
    file: &[u8],
    variables: usize,
    assigned: &[i64; Format::MAX_VARIABLES],
    model: &[i64; Format::MAX_VARIABLES],
) -> Set
    requires { (8 * variables ≤ length file.now) × (variables ≤ max_variables) }
    ensures { (v : ℕ)
        → has result.words v ≡ short (variable_in (variables_at file.now variables) v) (valued assigned.now v) (valued model.now v) }
{
    members::passing(variables, |v| {
        let variable = variables::variable(file, v as u8);
        variable.is_short(assigned[v], model[v])
    })
}

// A set in two parts: the variables that are not founded from above, and those that are.
#[derive(Clone, Copy)]
pub struct Parts {
    pub below: Set,
    pub above: Set,
}

// Whether some variable of a file is founded from above.
fn any_above(file: &[u8], variables: usize) -> bool
    requires { (8 * variables ≤ length file.now) × (variables ≤ max_variables) }
    ensures { result ≡ any_below variables (λ v. from_above (variable_in (variables_at file.now variables) v)) }
{
    for v in 0..variables {
        let variable = variables::variable(file, v as u8);
        if variable.is_from_above() {
            return true;
        }
    }
    false
}

// The members of a set that are founded from above, where `above` says so, or the others.
fn part(file: &[u8], variables: usize, set: Set, above: bool) -> Set
    requires { (8 * variables ≤ length file.now) × (variables ≤ max_variables) }
    ensures { (v : ℕ) → has result.words v ≡ (ltb v variables && part_in above (variables_at file.now variables) (has set.words) v) }
{
    members::passing(variables, |v| {
        let x = v as u8;
        let variable = variables::variable(file, x);
        let down = variable.is_from_above();
        let wanted = (down & above) | (!down & !above);
        set.contains(x) & wanted
    })
}

// Both parts of a set of the file's variables; a file without variables founded from above pays no search for them.
pub fn in_parts(file: &[u8], variables: usize, set: Set) -> Parts
    requires variables_in_bounds { (8 * variables ≤ length file.now) × (variables ≤ max_variables) }
    requires by_index { (v : ℕ) → variables ≤ v → has set.words v ≡ false }
    ensures { PartsAre (variables_at file.now variables) (has set.words) result }
{
    if !any_above(file, variables) {
        return Parts {
            below: set,
            above: Set::empty(),
        };
    }
    Parts {
        below: part(file, variables, set, false),
        above: part(file, variables, set, true),
    }
}
