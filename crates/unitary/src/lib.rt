// circuit_unitary: its questions, then the circuit run from the identity with no classical bits.
// Kept (together): limits and buffers, as in judge::call.
// Kept (buffers): a branch by its place in the work words, as in branches::bank.
#![tactic(auto)]

ghost use Rattle.std.specs.Prelude.{◌≡◌, ◌*◌, ◌≤◌, length};
ghost use Rattle.cells.specs.Cells.{cell_size, fill};
ghost use Rattle.rows.specs.Inner.Rows.{held_in, Factors};
ghost use Rattle.gate.specs.Gate.{gates_of};
ghost use Rattle.unitary.specs.Inner.Accepted.{Accepted};
ghost use Rattle.unitary.specs.Unitary.{with_unitary, with_zeros, verdict_of, result_after, work_after};

use branches::bank::slot_size;
use branches::run::run_gates;
use cells::{CELL, numerators_at, write_cell};
use channel::layout::ENTRY;
use circuit::limits::Limits;
use circuit::questions::judge_unitary;
use circuit::sizes::power;
use matrix::words::clear;
use scalar::numerators::reduce;
use verdict::Verdict;

// Write n numbers that share an exponent, which lie in `work` from `at` on, as cells.
fn write_lowest(res: &mut [i64], work: &[i64], at: usize, n: usize)
    requires { Factors work.now at n × (n * cell_size ≤ length res.old) }
    ensures { res.new ≡ fill res.old 0 n (held_in work.now at n) }
{
    let e = work[at + n * ENTRY] as u32;
    for i in 0..n {
        let x = reduce(numerators_at(work, at + i * ENTRY), e);
        write_cell(res, i * CELL, x);
    }
}

// Run an accepted circuit and write its unitary; the words of `work` that it takes end as zero.
fn run_unitary(qubits: u32, gates: &[u32], res: &mut [i64], work: &mut [i64])
    requires { Accepted qubits (gates_of gates.now) (length res.old) (length work.old) }
    ensures { (res.new ≡ with_unitary qubits gates.now res.old) × (work.new ≡ with_zeros qubits work.old) }
{
    let d = power(qubits as u64) as usize;
    let at = run_gates(work, gates, &[], qubits, d, 1);
    write_lowest(res, work, at, d * d);
    clear(work, 0, 4 * slot_size(d));
}

// The unitary of a circuit. A refusal leaves both buffers as they were.
// Kept: `circuit_channel` of judge::call has these three lines as well, with a judge and a run of its own; a function of both would take these two as closures.
pub fn circuit_unitary(
    qubits: u32,
    gates: &[u32],
    limits: Limits,
    res: &mut [i64],
    work: &mut [i64],
) -> Verdict
    ensures value { result ≡ verdict_of qubits limits gates.now res.old work.old }
    ensures res_after { res.new ≡ result_after qubits limits gates.now res.old work.old }
    ensures work_after { work.new ≡ work_after qubits limits gates.now res.old work.old }
{
    judge_unitary(qubits, limits, gates, res.len() as u64, work.len() as u64)?;
    run_unitary(qubits, gates, res, work);
    Ok(())
}
