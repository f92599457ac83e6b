// circuit_channel: the ten questions, then the circuit run and its channel delivered.
// Kept (together): limits that are judged and two buffers that are written: a struct of them would be built for the call, and each clause would name the buffers by their nesting in it.
ghost use Rattle.std.specs.Prelude.{◌≡◌, ◌^◌, replicate, pos};
ghost use Rattle.algebra.specs.Lists.{total};
ghost use Rattle.gate.specs.Gate.{gates_of, splits};
ghost use Rattle.circuit.specs.Sizes.{work_words};
ghost use Rattle.collect.specs.Delivered.{overwritten};
ghost use Rattle.judge.specs.Delivered.{circuit_words};
ghost use Rattle.judge.specs.Call.{verdict_of, result_after, work_after};
ghost use Rattle.judge.specs.Layered.{layered_verdict_of, layered_result, layered_work};
ghost use Rattle.judge.specs.Inner.Accepted.{Accepted};

use branches::bank::{Bank, slot_size};
use branches::run::run_gates;
use circuit::Circuit;
use circuit::limits::Limits;
use circuit::questions::{judge_circuit, judge_layered};
use circuit::sizes::power;
use collect::deliver;
use matrix::words::clear;
use verdict::Verdict;

// Run an accepted circuit with so many measures and resets, and write its channel; the words of `work` that it takes end as zero.
fn run_and_deliver(split_count: u64, circuit: Circuit, res: &mut [i64], work: &mut [i64])
    requires { (split_count ≡ total splits (gates_of circuit.gates.now)) × Accepted circuit.qubits circuit.bits circuit.store.now circuit.gates.now res.old work.old }
    ensures res_after { let c = circuit.entry in res.new ≡ overwritten (circuit_words c.qubits c.bits c.store.now (gates_of c.gates.now)) res.old }
    ensures work_after { let c = circuit.entry in work.new ≡ overwritten (replicate (work_words (2 ^ total splits (gates_of c.gates.now)) (2 ^ c.qubits)) (pos 0)) work.old }
{
    let d = power(circuit.qubits as u64) as usize;
    let banks = power(split_count) as usize;
    let at = run_gates(work, circuit.gates, circuit.store, circuit.qubits, d, banks);
    deliver(
        res,
        work,
        Bank {
            at,
            d,
            count: banks,
        },
        circuit.bits,
    );
    let used = (2 * banks + 2) * slot_size(d);
    clear(work, 0, used);
}

// The channel of a circuit. A refusal leaves both buffers as they were.
pub fn circuit_channel(
    circuit: Circuit,
    limits: Limits,
    res: &mut [i64],
    work: &mut [i64],
) -> Verdict
    ensures value { let c = circuit.entry in result ≡ verdict_of c.qubits c.bits c.store.now limits c.gates.now res.old work.old }
    ensures res_after { let c = circuit.entry in res.new ≡ result_after c.qubits c.bits c.store.now limits c.gates.now res.old work.old }
    ensures work_after { let c = circuit.entry in work.new ≡ work_after c.qubits c.bits c.store.now limits c.gates.now res.old work.old }
{
    let split_count = judge_circuit(circuit, limits, res.len() as u64, work.len() as u64)?;
    run_and_deliver(split_count, circuit, res, work);
    Ok(())
}

// Kept: a twin of `circuit_channel` but for its judge; they share `run_and_deliver`, and a function of the three lines left would take the judge as a closure with a contract.
// The channel of a layered circuit: `ends` are the ends of its layers, each the count of gates so far. A refusal leaves both buffers as they were.
pub fn layered_channel(
    circuit: Circuit,
    ends: &[u32],
    limits: Limits,
    res: &mut [i64],
    work: &mut [i64],
) -> Verdict
    ensures value { let c = circuit.entry in result ≡ layered_verdict_of c.qubits c.bits c.store.now limits c.gates.now ends.now res.old work.old }
    ensures res_after { let c = circuit.entry in res.new ≡ layered_result c.qubits c.bits c.store.now limits c.gates.now ends.now res.old work.old }
    ensures work_after { let c = circuit.entry in work.new ≡ layered_work c.qubits c.bits c.store.now limits c.gates.now ends.now res.old work.old }
{
    let split_count = judge_layered(circuit, limits, ends, res.len() as u64, work.len() as u64)?;
    run_and_deliver(split_count, circuit, res, work);
    Ok(())
}
