// The printing program's text: the answer of the check, and its report's entries, in lines.
#![tactic(auto)]

ghost use Rattle.std.specs.Prelude.{◌≡◌};
ghost use Rattle.printing.specs.Prints.{max_input, report_bytes, room, Told, Printed};

use checker::call::{Asks, check};
use format::Format;
use framing::{Framing, is_misframed};
use lines::{put_answer, put_two};

#[derive(Drop)]
pub struct Printing {}

impl Printing {
    // The longest input.
    pub const MAX_INPUT: usize = 61000;

    // The bytes of the report that the check is lent.
    pub const REPORT: usize = Asks::BYTES * Format::MAX_VARIABLES;

    // Room for the longest text.
    pub const ROOM: usize = 14644;

    // The constants of the code are those of the specification.
    pub fn quoted()
        ensures max_input { Printing.MAX_INPUT ≡ max_input }
        ensures report { Printing.REPORT ≡ report_bytes }
        ensures room { Printing.ROOM ≡ room }
    {}
}

// The text of what the check answers.
fn print_checked(file: &[u8], assignment: &[u8], output: &mut [u8]) -> usize
    ensures { Told file.now assignment.now output.old result output.new }
{
    let mut report = [0u8; Printing::REPORT];
    let verdict = check(file, assignment, &mut report);
    put_answer(output, verdict, &report)
}

// The text for an input, from the output's first byte on, for every input and output; answers how many bytes the text has. Of a text that is
// longer than the output the first bytes are written, as many as the output has; the bytes after a shorter text keep their values. No text has
// more than `Printing::ROOM` bytes.
pub fn print(input: &[u8], output: &mut [u8]) -> usize
    ensures { Printed input.now output.old result output.new }
{
    if is_misframed(input, Printing::MAX_INPUT) {
        return put_two(output, b"refused ", Framing::REFUSAL, 0);
    }
    let end = 2 + format::unsigned_at(input, 0);
    print_checked(&input[2..end], &input[end..], output)
}
