// A text of OpenQASM 2: its circuit read, judged and run.
// Kept (together): the lent buffers. Of one struct each contract would say of each buffer that it is the same one, beside what it holds.
#![tactic(auto)]

ghost use Rattle.std.specs.Prelude.{◌≡◌, ◌≤◌, length};
ghost use Rattle.judge.specs.Call.{verdict_of, result_after, work_after};
ghost use Rattle.qasm.specs.Reading.{read_of, filled};
ghost use Rattle.text_sides.specs.Sides.{store_for, words_of, side_by, result_by, work_by};

use circuit::Circuit;
use circuit::limits::Limits;
use judge::call::circuit_channel;
use qasm::reader::{Fault, Reading, read_qasm};
use verdict::{Refusal, Verdict};

// Why a text has no channel.
#[derive(Clone, Copy)]
pub enum NoChannel {
    // The text is faulty.
    Faulty(Fault),
    // A circuit was read, with these counts, and is refused.
    Refused(Reading, Refusal),
}

// The most classical bits.
const MAX_BITS: usize = 64;

// The channel of a circuit whose first bits start as its store says, and the others as 0.
fn run_circuit(circuit: Circuit, limits: Limits, res: &mut [i64], work: &mut [i64]) -> Verdict
    ensures value { let c = circuit.entry in result ≡ verdict_of c.qubits c.bits (store_for c.bits c.store.now) limits c.gates.now res.old work.old }
    ensures res_after { let c = circuit.entry in res.new ≡ result_after c.qubits c.bits (store_for c.bits c.store.now) limits c.gates.now res.old work.old }
    ensures work_after { let c = circuit.entry in work.new ≡ work_after c.qubits c.bits (store_for c.bits c.store.now) limits c.gates.now res.old work.old }
{
    let given = circuit.store.len();
    let all = (circuit.bits as usize).min(MAX_BITS);
    if all <= given {
        return circuit_channel(circuit, limits, res, work);
    }
    let mut padded = [0u8; MAX_BITS];
    padded[..given].copy_from_slice(circuit.store);
    let filled = Circuit {
        store: &padded[..all],
        ..circuit
    };
    circuit_channel(filled, limits, res, work)
}

// Reads a text, and runs its circuit where it is accepted.
pub fn run_side(
    text: &[u8],
    store: &[u8],
    limits: Limits,
    gates: &mut [u32],
    res: &mut [i64],
    work: &mut [i64],
) -> Result<Reading, NoChannel>
    ensures side { result ≡ side_by store.now limits gates.old res.old work.old (read_of text.now) }
    ensures words { words_of result ≤ length gates.new }
    ensures gates { gates.new ≡ filled gates.old (read_of text.now) }
    ensures res { res.new ≡ result_by store.now limits gates.old res.old work.old (read_of text.now) }
    ensures work { work.new ≡ work_by store.now limits gates.old res.old work.old (read_of text.now) }
{
    let reading = read_qasm(text, gates).map_err(NoChannel::Faulty)?;
    let circuit = Circuit {
        qubits: reading.qubits,
        bits: reading.bits,
        store,
        gates: &gates[..reading.words],
    };
    // Kept: both arms hand on the reading; `map_err` with a closure over it, `?` and `Ok` would be no plainer.
    match run_circuit(circuit, limits, res, work) {
        Ok(()) => Ok(reading),
        Err(refusal) => Err(NoChannel::Refused(reading, refusal)),
    }
}
