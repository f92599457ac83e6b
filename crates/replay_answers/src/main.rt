// Replays the recorded answers. The text: how many cases there are, then the cases; a case is its kind, its source (0 the Rust, 1 the documents), what its calls are given, and what they
// answered.
#![tactic(auto)]

use replay::progress::replay_input;
use replay_cases::kinds::RecordedCase;
use std::io;

// Room for the text.
const TEXT: usize = 1300000;

fn main(rt: HostRuntime) -> io::Result<()> {
    let mut text = [0u8; TEXT];
    replay_input::<RecordedCase, _>(&rt, &mut rt.stdin(), &mut text)?;
    Ok(())
}
