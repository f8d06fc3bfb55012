// Reads standard input to its end, a file with lent ranges, and prints how far each founded variable can still be lifted, or the line of a refusal.
#![tactic(auto)]

use listing::Listing;
use std::io;
use std::io::Write;
use telling::read_full;

fn main(rt: HostRuntime) -> io::Result<()> {
    // One byte more than the longest input is enough to see that an input is longer.
    let mut input = [0u8; Listing::MAX_INPUT + 1];
    let read = read_full(&mut rt.stdin(), &mut input)?;
    let mut output = [0u8; Listing::ROOM];
    let n = listing::list(&input[..read], &mut output);
    rt.stdout().write_all(&output[..n])
}
