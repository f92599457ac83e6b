// Lists the channel of a circuit: its numbers come on standard input, and the lines go to standard output.
#![tactic(auto)]

use circuit_text::input::MAX_BYTES;
use listing::{MAX_LISTING, list};
use replay::input::read_full;
use std::io;

// A text that is too long is seen by its next byte.
const TEXT: usize = MAX_BYTES + 1;

fn main(rt: HostRuntime) -> io::Result<()> {
    let mut text = [0; TEXT];
    let mut result = [0; 5200];
    let mut work = [0; 2000];
    let mut page = [0; MAX_LISTING];
    let n = read_full(&mut rt.stdin(), &mut text)?;
    let count = list(&text[..n], &mut result, &mut work, &mut page);
    rt.write_all(&page[..count])
}
