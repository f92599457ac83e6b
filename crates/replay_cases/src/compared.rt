// Cases of two circuits, whose channels are compared.
// Kept (buffers): the places in the text are those of crate replay, which says why.
// Kept (together): a text, a place and lent buffers, as in reading.rt.
ghost use Rattle.std.specs.Prelude.{◌≡◌};
ghost use Rattle.replay_cases.specs.Given.{given};
ghost use Rattle.replay_cases.specs.Circuits.{channel_of, work_of, compared, compare_case};

use crate::reading::{GATES, STORE, read_circuit};
use judge::call::circuit_channel;
use replay::calls::compare_call;
use replay::record::Record;

// Room for the words of a channel, and for work.
const CHANNEL: usize = 41000;

const WORK: usize = 3300;

// The channel of the circuit at `at`, in `res`. Answers where the next number begins. A refusal leaves words that compare refuses, or others.
fn channel_of(text: &[u8], at: usize, res: &mut [i64], work: &mut [i64]) -> usize
    ensures next { result ≡ (given text.now at).next }
    ensures channel { res.new ≡ channel_of text.now at res.old work.old }
    ensures work { work.new ≡ work_of text.now at res.old work.old }
{
    let mut store = [0u8; STORE];
    let mut words = [0u32; GATES];
    let c = read_circuit(text, at, &mut store, &mut words);
    let _ = circuit_channel(c.circuit, c.limits, res, work);
    c.next
}

// Two circuits; what compare finds in their channels, which these buffers are lent for.
fn compared(text: &[u8], at: usize, left: &mut [i64], right: &mut [i64], work: &mut [i64]) -> Record
    ensures { result ≡ compared text.now at left.old right.old work.old }
{
    let second = channel_of(text, at, left, work);
    let answer = channel_of(text, second, right, work);
    compare_call(Record::begin(answer), text, left, right)
}

// Kept (twins): `listing_case` lends buffers of its own to another function in the same way.
// The same with the buffers that it lends.
#[inline(never)]
pub fn compare_case(text: &[u8], at: usize) -> Record
    ensures { result ≡ compare_case text.now at }
{
    let mut left = [0i64; CHANNEL];
    let mut right = [0i64; CHANNEL];
    let mut work = [0i64; WORK];
    compared(text, at, &mut left, &mut right, &mut work)
}
