// What one rule demands.
ghost use Rattle.std.specs.Prelude.{◌≡◌, cond, ℕ};
ghost use Rattle.program.specs.Program.{Program, rule_of, term_form, variable_in, variables_at};
ghost use Rattle.program.specs.Readings.{Valuation, body_variable};
ghost use Rattle.program.specs.Variables.{not_past};
ghost use Rattle.program.specs.Evaluable.{Evaluable, Small};
ghost use Rattle.parts.specs.Values.{Standing};
ghost use Rattle.meaning.specs.Reduct.{Reckoning};
ghost use Rattle.sided.specs.Reached.{risen, size_side, plain_side};
ghost use Rattle.run.specs.Running.{RuleStands, SomeRule, Demanded};
ghost use Rattle.ascent.specs.Ascending.{ReadOn};
ghost use Rattle.ascent.specs.Looking.{SomeStanding};

use format::Format;
use parts::places::value_at;
use parts::{rules, variables};
use program::Variable;
use run::demands::head_at;
use sided::rules::gives_past;
use sided::{Sides, read};

// Whether the variable x of a size is read as falling, `above` telling whether the head is founded from above.
fn size_side(x: Variable, above: bool) -> bool
    ensures { result ≡ size_side x above }
{
    if 0 <= x.low {
        return above;
    }
    if x.high <= 0 {
        return !above;
    }
    !x.is_from_above()
}

// Whether the plain terms of the rule in a field's value, whose head is h, are read as falling. Of a size this goes by its variable's range, of all else by the head.
fn plain_side(file: &[u8], value: &[u8], h: Variable) -> bool
    requires some_standing { SomeStanding file.now value.now }
    requires evaluable { Evaluable (rule_of value.now) }
    ensures { (n : ℕ) → Standing file.now n value.now
        → result ≡ plain_side (term_form (rule_of value.now).form) h (variable_in (variables_at file.now n) (body_variable (rule_of value.now) 0)) }
{
    let above = h.is_from_above();
    if value[0] != 5 {
        return above;
    }
    let first = rules::variable_at(value, 0);
    let x = variables::variable(file, first);
    size_side(x, above)
}

// What is given to the head x: with `full` no further than its stop.
fn no_further(full: bool, x: Variable, stop: i64, a: i64) -> i64
    ensures { result ≡ cond full (cond (not_past x a stop) a stop) a }
{
    if full && x.is_before(stop, a) {
        return stop;
    }
    a
}

// Whether the rule whose field stands at `at` demands more than its head has; with `full` a head that has its value in `stops` needs no more, and no rule gives past it.
pub fn look(
    file: &[u8],
    at: usize,
    sides: &[i64; Sides::LENGTH],
    stops: &[i64; Format::MAX_VARIABLES],
    full: bool,
) -> Option<i64>
    requires some_rule { SomeRule file.now at }
    requires small { Small sides.now }
    ensures { (P : Program) (R : Reckoning) (θ : Valuation) (i : ℕ) → RuleStands file.now P i at
        → ReadOn P R θ stops.now full sides.now i → Demanded P R θ (risen P.variables sides.now) i result }
{
    let value = value_at(file, at);
    let head = head_at(file, at);
    let x = variables::variable(file, head);
    let has = read(sides, x.is_from_above(), head);
    let stop = stops[format::wide(head)];
    if full && has == stop {
        return None;
    }
    let side = plain_side(file, value, x);
    let past = gives_past(value, side, sides, x, has);
    match past {
        Some(a) => Some(no_further(full, x, stop, a)),
        None => None,
    }
}
