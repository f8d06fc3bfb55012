// The printing program: reads standard input to its end and prints the text for it.
#![tactic(auto)]

use printing::Printing;
use std::io;
use std::io::Write;
use telling::read_full;

fn main(rt: HostRuntime) -> io::Result<()> {
    // One byte more than the longest input is enough to see that an input is longer.
    let mut input = [0u8; Printing::MAX_INPUT + 1];
    let read = read_full(&mut rt.stdin(), &mut input)?;
    let mut output = [0u8; Printing::ROOM];
    let n = printing::print(&input[..read], &mut output);
    rt.stdout().write_all(&output[..n])
}
