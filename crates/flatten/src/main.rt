// Reads a nested file from standard input to its end and writes its plain file, or the line of its refusal.
#![tactic(auto)]

use format::Format;
use std::io;
use std::io::Write;
use telling::read_full;

fn main(rt: HostRuntime) -> io::Result<()> {
    // One byte more than the longest file is enough to see that an input is longer.
    let mut input = [0u8; Format::MAX_FILE + 1];
    let read = read_full(&mut rt.stdin(), &mut input)?;
    let mut output = [0u8; Format::MAX_FILE];
    let n = unnesting::unnest(&input[..read], &mut output);
    rt.stdout().write_all(&output[..n])
}
