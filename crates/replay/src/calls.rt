// Calls that cases of several kinds make, with their answers held against the record.
// Kept (together): a record and its text, as in answers.rt.
// Kept (twins): two calls of one type; a function of both would take a closure, with a contract of what it writes for every channel and buffer, for three lines.
ghost use Rattle.std.specs.Prelude.{◌≡◌};
ghost use Rattle.compare.specs.Compare.{compare_of};
ghost use Rattle.replay.specs.Answers.{with_comparison, with_blocks, with_povm};
ghost use Rattle.replay.specs.Words.{marked};

use crate::answers::{check_comparison, check_effects};
use crate::record::Record;
use crate::words::mark;
use compare::compare;
use effects::{classical_blocks, povm_effects};

// compare of two channels.
pub fn compare_call(seen: Record, text: &[u8], left: &[i64], right: &[i64]) -> Record
    ensures { result ≡ with_comparison text.now seen (compare_of left.now right.now) }
{
    let d = compare(left, right);
    check_comparison(seen, text, d)
}

// classical_blocks on a marked result.
pub fn effects_call(seen: Record, text: &[u8], channel: &[i64], res: &mut [i64]) -> Record
    ensures { result ≡ with_blocks text.now seen channel.now (marked res.old) }
{
    mark(res);
    let v = classical_blocks(channel, res);
    check_effects(seen, text, v, res)
}

// povm_effects on a marked result.
pub fn povm_call(seen: Record, text: &[u8], channel: &[i64], res: &mut [i64]) -> Record
    ensures { result ≡ with_povm text.now seen channel.now (marked res.old) }
{
    mark(res);
    let v = povm_effects(channel, res);
    check_effects(seen, text, v, res)
}
