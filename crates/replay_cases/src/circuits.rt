// Cases of one circuit: circuit_unitary, circuit_channel with classical_blocks of its result, layered_channel and plain_channel.
// Kept (buffers): the places in the text are those of crate replay, which says why.
// Kept (switches): circuit_unitary takes no store and layered_channel the ends too; the other two take the same. Closures of one type for all four would be built by the same match.
// Kept (together): a text, a place and lent buffers, as in reading.rt; a record and its text, as in replay::answers.
ghost use Rattle.std.specs.Prelude.{◌≡◌, take};
ghost use Rattle.replay.specs.Answers.{with_blocks};
ghost use Rattle.replay.specs.Words.{marked};
ghost use Rattle.replay_cases.specs.Given.{circuit_of};
ghost use Rattle.replay_cases.specs.Circuits.{room, asked_verdict, asked_result, asked_work, called, called_result, traced, answered, circuit_case};

use crate::kinds::CircuitCall;
use crate::reading::{CircuitRead, ENDS, GATES, STORE, read_circuit, read_ends};
use judge::call::{circuit_channel, layered_channel};
use plain::plain_channel;
use replay::answers::check_call;
use replay::calls::effects_call;
use replay::numeral::read;
use replay::record::Record;
use replay::words::{fitting, mark};
use unitary::circuit_unitary;
use verdict::Verdict;

// Room for the words of a result, for work, and for the words of effects.
const RESULT: usize = 656000;

const WORK: usize = 167000;

const EFFECTS: usize = 2600;

// The call on a circuit and the ends of its layers.
fn asked(
    call: CircuitCall,
    c: CircuitRead,
    ends: &[u32],
    res: &mut [i64],
    work: &mut [i64],
) -> Verdict
    ensures verdict { result ≡ asked_verdict call (circuit_of c.entry) ends.now res.old work.old }
    ensures res { res.new ≡ asked_result call (circuit_of c.entry) ends.now res.old work.old }
    ensures work { work.new ≡ asked_work call (circuit_of c.entry) ends.now res.old work.old }
{
    match call {
        CircuitCall::Unitary => {
            circuit_unitary(c.circuit.qubits, c.circuit.gates, c.limits, res, work)
        }
        CircuitCall::Layered => layered_channel(c.circuit, ends, c.limits, res, work),
        CircuitCall::Plain => plain_channel(c.circuit, c.limits, res, work),
        CircuitCall::Channel => circuit_channel(c.circuit, c.limits, res, work),
    }
}

// The call on the circuit at `at` and on marked buffers.
fn called(call: CircuitCall, text: &[u8], at: usize, res: &mut [i64], work: &mut [i64]) -> Record
    ensures held { result ≡ called call text.now at res.old work.old }
    ensures res { res.new ≡ called_result call text.now at res.old work.old }
{
    let mut store = [0u8; STORE];
    let mut words = [0u32; GATES];
    let mut ends = [0u32; ENDS];
    let c = read_circuit(text, at, &mut store, &mut words);
    let layers = read_ends(call, text, c.next, &mut ends);
    mark(res);
    mark(work);
    let v = asked(call, c, layers.words, res, work);
    check_call(Record::begin(layers.next), text, v, res, work)
}

// The effects of a channel, in a buffer of this length.
fn effects_of(seen: Record, text: &[u8], length: u64, channel: &[i64]) -> Record
    ensures { result ≡ with_blocks text.now seen channel.now (marked (take length (room 2600))) }
{
    let mut effects = [0i64; EFFECTS];
    let e = fitting(length, EFFECTS);
    effects_call(seen, text, channel, &mut effects[..e])
}

// Of a channel its effects; of a unitary, of a layered circuit and of one of the profile none are recorded.
fn traced(call: CircuitCall, seen: Record, text: &[u8], length: u64, channel: &[i64]) -> Record
    ensures { result ≡ traced call seen text.now length channel.now }
{
    match call {
        CircuitCall::Channel => effects_of(seen, text, length, channel),
        CircuitCall::Unitary | CircuitCall::Layered | CircuitCall::Plain => seen,
    }
}

// The lengths of three buffers, and a circuit; verdict, index, the checksums of two buffers, and of a channel what its effects are.
fn answered(call: CircuitCall, text: &[u8], at: usize, res: &mut [i64], work: &mut [i64]) -> Record
    ensures { result ≡ answered call text.now at res.old work.old }
{
    let after = read(text, at);
    let spent = read(text, after.next);
    let effects = read(text, spent.next);
    let r = fitting(after.size, res.len());
    let w = fitting(spent.size, work.len());
    let seen = called(call, text, effects.next, &mut res[..r], &mut work[..w]);
    traced(call, seen, text, effects.size, &res[..r])
}

// The same with the buffers that it lends.
#[inline(never)]
pub fn circuit_case(call: CircuitCall, text: &[u8], at: usize) -> Record
    ensures { result ≡ circuit_case call text.now at }
{
    let mut result = [0i64; RESULT];
    let mut work = [0i64; WORK];
    answered(call, text, at, &mut result, &mut work)
}
