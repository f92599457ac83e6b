// The plain-gate profile: circuits of a rack that has no t gate and stores no √2 parts.
// Kept (together): limits and buffers, or the limits and the lengths of buffers, as in circuit::questions and judge::call.
#![tactic(auto)]

ghost use Rattle.std.specs.Prelude.{◌≡◌};
ghost use Rattle.verdict.specs.Questions.{first_no};
ghost use Rattle.gate.specs.Gate.{gates_of};
ghost use Rattle.gate.specs.Inner.Words.{gate_of};
ghost use Rattle.plain.specs.Profile.{in_profile};
ghost use Rattle.plain.specs.Questions.{profile_questions, plain_word_questions, plain_verdict};
ghost use Rattle.plain.specs.Call.{plain_verdict_of, plain_result, plain_work};

use circuit::Circuit;
use circuit::limits::Limits;
use circuit::questions::{judge_channel, judge_length};
use gate::GATE;
use gate::judge::{Asking, GateWords, read_gate};
use gate::kinds::Kind;
use judge::call::circuit_channel;
use verdict::{Refusal, Verdict};

// The writer and the reader of channels without √2 parts, which the profile's circuits have.
pub use plain_words::{read_plain, write_plain};

// Whether a gate is in the profile.
fn is_plain(g: GateWords) -> bool
    ensures { result ≡ in_profile (gate_of g) }
{
    match g.known_kind() {
        Some(
            Kind::H
            | Kind::X
            | Kind::Z
            | Kind::S
            | Kind::Sdg
            | Kind::Cnot
            | Kind::Cz
            | Kind::Measure
            | Kind::Reset
            | Kind::Y
            | Kind::Sx
            | Kind::Swap
            | Kind::Cy,
        ) => true,
        Some(Kind::Rz) => matches!(g.k, 0 | 2 | 4 | 6),
        _ => false,
    }
}

// Questions 4 to 6 and 23, gate by gate.
// Kept: the loop of circuit::gates with question 23 behind those of each gate; as a closure the question would need a contract on every gate, for a loop of this length.
fn judge_gates(circuit: Circuit) -> Verdict
    ensures { let c = circuit.entry in result ≡ first_no (profile_questions c.qubits c.bits 0 (gates_of c.gates.now)) }
{
    let asking = Asking::Channel(circuit.bits);
    for i in 0..circuit.gates.len() / GATE {
        let g = read_gate(circuit.gates, i * GATE);
        g.judge(i, circuit.qubits, asking)?;
        if !is_plain(g) {
            return Err(Refusal::NotPlainAt(i));
        }
    }
    Ok(())
}

// Questions 1 to 6, with 23 after each gate's.
fn judge_profile(circuit: Circuit, l: Limits) -> Verdict
    ensures { let c = circuit.entry in result ≡ first_no (plain_word_questions c.qubits c.bits l c.gates.now) }
{
    judge_length(circuit.gates, l)?;
    judge_gates(circuit)
}

// The verdict alone; `res` and `work` are the lengths of the buffers.
pub fn judge_plain_channel(circuit: Circuit, l: Limits, res: u64, work: u64) -> Verdict
    ensures { let c = circuit.entry in result ≡ plain_verdict c.qubits c.bits c.store.now l c.gates.now res work }
{
    judge_profile(circuit, l)?;
    judge_channel(circuit, l, res, work)
}

// The channel of a circuit of the profile. A refusal leaves both buffers as they were.
pub fn plain_channel(circuit: Circuit, limits: Limits, res: &mut [i64], work: &mut [i64]) -> Verdict
    ensures value { let c = circuit.entry in result ≡ plain_verdict_of c.qubits c.bits c.store.now limits c.gates.now res.old work.old }
    ensures res_after { let c = circuit.entry in res.new ≡ plain_result c.qubits c.bits c.store.now limits c.gates.now res.old work.old }
    ensures work_after { let c = circuit.entry in work.new ≡ plain_work c.qubits c.bits c.store.now limits c.gates.now res.old work.old }
{
    judge_profile(circuit, limits)?;
    circuit_channel(circuit, limits, res, work)
}
