// What the rules with a head in a set ask of the assignment.
ghost use Rattle.std.specs.Prelude.{◌≡◌, ℕ};
ghost use Rattle.words.specs.Bit.{has};
ghost use Rattle.program.specs.Fields.{value_at};
ghost use Rattle.program.specs.Program.{Program, rule_of, variables_at};
ghost use Rattle.program.specs.Reading.{AcceptedAs, Accepts};
ghost use Rattle.tables.specs.Entries.{RuleHere};
ghost use Rattle.report.specs.Report.{asked, asks_most, asks_least};
ghost use Rattle.conditions.specs.Asking.{AsksMore, asked_into};

use crate::asking::{Asked, ask_rule};
use parts::places::{next_at, value_at};
use parts::rules;
use program::Counts;
use sets::Set;

// What the rule whose field stands at `at` asks, where its head is in the set.
fn ask_field(before: Asked, file: &[u8], variables: usize, at: usize, set: Set) -> Asked
    requires { RuleHere file.now variables at }
    ensures { AsksMore before result (asked_into (variables_at file.now variables) (has set.words) (rule_of (value_at file.now at))) }
{
    let value = value_at(file, at);
    let rule = rules::header(value);
    if !set.contains(rule.head) {
        return before;
    }
    ask_rule(before, file, variables, value, set)
}

// The variables with a condition 'at most' and those with one 'at least', from the rules with a head in the set.
pub fn asked(file: &[u8], counts: Counts, set: Set) -> Asked
    requires { AcceptedAs file.now counts }
    ensures v_value { (P : Program) → Accepts file.now P → (v : ℕ) → has result.most.words v ≡ asked P (has set.words) asks_most v }
    ensures v_value_2 { (P : Program) → Accepts file.now P → (v : ℕ) → has result.least.words v ≡ asked P (has set.words) asks_least v }
{
    let n = counts.variables;
    let rules = counts.rules;
    let none = Set::empty();
    let mut all = Asked {
        most: none,
        least: none,
    };
    let mut at = 8 * n;
    for i in 0..rules {
        let next = ask_field(all, file, n, at, set);
        all = next;
        at = next_at(file, at);
    }
    all
}
