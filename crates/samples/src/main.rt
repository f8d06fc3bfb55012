// Tries the reader of rule files, the calls least, check, normalize, flatten and bounds, the search of components and the texts of the programs `print_verdict` and
// `bounds` on the cases of a table, and prints their answers. The table is standard input; its first lines say how a case is written. For a line that is written
// otherwise `bad line` and its number are printed.
#![tactic(auto)]

use cases::each;
use std::io;
use std::io::{BufWriter, Write};
use telling::{large_buffer, space, taken};

fn main(rt: HostRuntime) -> io::Result<()> {
    let mut out = BufWriter::new(rt.alloc(), rt.stdout())?;
    let mut table = space();
    let mut bytes = space();
    let mut room = large_buffer();
    let n = taken(&mut rt.stdin(), &mut out, &mut table)?;
    each(&mut out, &table[..n], &mut bytes, &mut room)?;
    out.flush()
}
