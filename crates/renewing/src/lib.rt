// What the program `normalize` writes: the normal form of its input, or the line of a refusal.
#![tactic(auto)]

ghost use Rattle.std.specs.Prelude.{◌≤◌, length};
ghost use Rattle.renewing.specs.Renews.{room, Renewed};

use calls::{denial_number, denial_place};
use lines::put_refusal;
use rewriting::call::normalize;

// The text for an input, from the output's first byte on; answers how many bytes the text has. The bytes after it keep their values. The call is lent as many
// bytes as the input has.
pub fn renew(input: &[u8], output: &mut [u8]) -> usize
    requires { (room ≤ length output.old) × (length input.now ≤ length output.old) }
    ensures { Renewed input.now output.old result output.new }
{
    let size = input.len();
    match normalize(input, &mut output[..size]) {
        Err(why) => put_refusal(output, denial_number(why), denial_place(why)),
        Ok(n) => n,
    }
}
