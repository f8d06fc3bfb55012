// What the program `flatten` writes: the plain file of its input, or the line of a refusal.
#![tactic(auto)]

ghost use Rattle.std.specs.Prelude.{◌≤◌, length};
ghost use Rattle.unnesting.specs.Unnests.{room, Unnested};

use calls::{denial_number, denial_place};
use flattening::flatten;
use format::Format;
use lines::put_refusal;

// The text for an input, from the output's first byte on; answers how many bytes the text has. The bytes after it keep their values. The call is lent as many
// bytes as the longest file has.
pub fn unnest(input: &[u8], output: &mut [u8]) -> usize
    requires { room ≤ length output.old }
    ensures { Unnested input.now output.old result output.new }
{
    match flatten(input, &mut output[..Format::MAX_FILE]) {
        Err(why) => put_refusal(output, denial_number(why), denial_place(why)),
        Ok(n) => n,
    }
}
