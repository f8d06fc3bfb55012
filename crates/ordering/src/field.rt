// The fields of rules and constraints.
ghost use Rattle.std.specs.Prelude.{◌≡◌, ◌+◌, ◌≤◌, length, drop};
ghost use Rattle.program.specs.Program.{Program};
ghost use Rattle.program.specs.Reading.{AcceptedAs, Accepts};
ghost use Rattle.ordering.specs.Fields.{ordered_from, FieldHere, FieldOrdered, OrderedFile};

use crate::body::order_body;
use format::Format;
use parts::places::next_at;
use program::Counts;
use sorting::stretches::narrow;

// Where the terms that are ordered begin in the value of a rule or a constraint with this form.
fn ordered_from(tag: u8, form: u8) -> usize
    requires { (2 ≤ tag) × (tag ≤ 3) }
    ensures { (result ≡ ordered_from tag form) × (result ≤ 8) }
{
    if tag == Format::CONSTRAINT {
        return 3;
    }
    match form {
        7 | 8 => 8,
        _ => 4,
    }
}

// Orders the field at a place, of a text that is as the file from there on; answers the next place.
fn order_field(file: &[u8], at: usize, text: &mut [u8]) -> usize
    requires field_here { FieldHere file.now at }
    requires text_len { (length text.old ≡ length file.now) × (drop at text.old ≡ drop at file.now) }
    ensures { FieldOrdered file.now text.old text.new at result }
{
    let next = next_at(file, at);
    let start = at + 3 + ordered_from(file[at], file[at + 3]);
    order_body(&file[start..next], &mut text[start..next]);
    next
}

// Orders every field after the variables, of a text that is as the file, and notes their places; answers how many fields that are.
pub fn order_fields(file: &[u8], counts: Counts, text: &mut [u8], places: &mut [u16]) -> usize
    requires accepted_as { AcceptedAs file.now counts }
    requires text_value { (text.old ≡ file.now) × (counts.rules + counts.constraints ≤ length places.old) }
    ensures places_len_unchanged { length places.new ≡ length places.old }
    ensures ordered_file { (P : Program) → Accepts file.now P → OrderedFile file.now P text.new places.new result }
{
    let fields = counts.rules + counts.constraints;
    let mut at = 8 * counts.variables;
    for i in 0..fields {
        places[i] = narrow(at);
        at = order_field(file, at, text);
    }
    fields
}
