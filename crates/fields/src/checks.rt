// A whole field: its tag, its number among its kind, and its value.
ghost use Rattle.std.specs.Prelude.{◌≡◌, false, ◌*◌, ◌≤◌, length};
ghost use Rattle.program.specs.Program.{Program, variables_at};
ghost use Rattle.program.specs.Refusals.{one_too_many, unknown_tag, value_refusal};
ghost use Rattle.faults.specs.Faults.{checked_number};
ghost use Rattle.values.specs.Lengths.{length_refusal};
ghost use Rattle.fields.specs.Scanning.{Describes};

use format::Format;
use program::{Counts, Refusal};

pub fn is_unknown_tag(tag: u8) -> bool
    ensures { result ≡ unknown_tag tag }
{
    match tag {
        Format::VARIABLE..=Format::CONSTRAINT => false,
        0 | 4..=255 => true,
    }
}

pub fn is_one_too_many(tag: u8, counts: Counts) -> bool
    ensures { (P : Program) → length P.variables ≡ counts.variables → length P.rules ≡ counts.rules
        → length P.constraints ≡ counts.constraints → result ≡ one_too_many P tag }
{
    match tag {
        Format::VARIABLE => Format::MAX_VARIABLES <= counts.variables,
        Format::RULE => Format::MAX_RULES <= counts.rules,
        Format::CONSTRAINT => Format::MAX_CONSTRAINTS <= counts.constraints,
        0 | 4..=255 => false,
    }
}

// The value, by its tag.
pub fn check_value(file: &[u8], value: &[u8], tag: u8, variables: usize) -> Result<(), Refusal>
    requires { (8 * variables ≤ length file.now) × (unknown_tag tag ≡ false) }
    ensures { checked_number result ≡ length_refusal (variables_at file.now variables) tag value.now }
{
    match tag {
        Format::VARIABLE => values::check_variable(value),
        Format::RULE => values::check_rule(file, variables, value),
        _ => values::check_constraint(file, variables, value),
    }
}

// The first refusal from 3 to 12 of a field that is not cut short, after one with the tag `before` and so many fields of each kind.
pub fn check_field(
    file: &[u8],
    value: &[u8],
    tag: u8,
    before: u8,
    counts: Counts,
) -> Result<(), Refusal>
    requires { 8 * counts.variables ≤ length file.now }
    ensures { (P : Program) → Describes file.now counts P → checked_number result ≡ value_refusal P before tag value.now }
{
    if is_unknown_tag(tag) {
        return Err(Refusal::UnknownTag);
    }
    if tag < before {
        return Err(Refusal::TagBelow);
    }
    if is_one_too_many(tag, counts) {
        return Err(Refusal::OneTooMany);
    }
    check_value(file, value, tag, counts.variables)
}
