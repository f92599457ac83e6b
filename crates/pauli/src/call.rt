// pauli_channel: its questions, then the program run and its channel delivered.
// Kept (buffers): d is the number of rows, and no length of the masks beside it.
// Kept (together): limits and buffers, as in judge::call; work, d and banks, as in pauli_run::run.
ghost use Rattle.std.specs.Prelude.{◌≡◌, ◌/◌, length, take, replicate, pos};
ghost use Rattle.gate.specs.Gate.{gate_size};
ghost use Rattle.collect.specs.Delivered.{overwritten};
ghost use Rattle.pauli_nodes.specs.Inner.Masks.{node_masks};
ghost use Rattle.pauli_words.specs.Words.{nodes_of, operations_of};
ghost use Rattle.pauli_words.specs.Questions.{number_of};
ghost use Rattle.pauli_judge.specs.Footprint.{program_footprint};
ghost use Rattle.pauli_run.specs.Inner.Run.{Ran};
ghost use Rattle.pauli.specs.Delivered.{program_words};
ghost use Rattle.pauli.specs.Call.{worked, verdict_of, result_after, work_after};
ghost use Rattle.pauli.specs.Inner.Accepted.{Accepted, Runnable};

use branches::bank::Bank;
use circuit::limits::Limits;
use circuit::sizes::power;
use collect::deliver;
use matrix::words::clear;
use pauli_judge::footprint::ProgramFootprint;
use pauli_judge::questions::judge_runnable;
use pauli_judge::sizes::ProgramSizes;
use pauli_run::run::run_operations;
use pauli_words::masks::Mask;
use pauli_words::{MAX_NODES, Program};
use verdict::Verdict;

// Run an accepted program, whose nodes have these mask forms, on so many branches of d rows; answers where the last bank lies.
fn run_program(
    work: &mut [i64],
    program: Program,
    masks: &[Mask; MAX_NODES],
    d: usize,
    banks: usize,
) -> usize
    requires program { Runnable program.qubits program.store.now program.nodes.now program.operations.now work.old d banks }
    requires forms { take (number_of program.qubits (length program.nodes.now / gate_size)) masks.now ≡ node_masks program.qubits (nodes_of program.nodes.now) }
    ensures { let p = program.entry in Ran work.old work.new p.operations.now p.store.now p.qubits d banks result (nodes_of p.nodes.now) }
{
    run_operations(work, program, &masks[..program.node_count()], d, banks)
}

// Run an accepted program that asks for so much, whose nodes have these mask forms, and write its channel; the words of `work` that the questions ask for end as zero.
fn run_and_deliver(
    f: ProgramFootprint,
    program: Program,
    masks: &[Mask; MAX_NODES],
    res: &mut [i64],
    work: &mut [i64],
)
    requires program { (f ≡ program_footprint program.qubits program.bits (operations_of program.operations.now)) × Accepted program.qubits program.bits program.store.now program.nodes.now program.operations.now res.old work.old }
    requires forms { take (number_of program.qubits (length program.nodes.now / gate_size)) masks.now ≡ node_masks program.qubits (nodes_of program.nodes.now) }
    ensures res_after { let p = program.entry in res.new ≡ overwritten (program_words p.qubits p.bits p.store.now (nodes_of p.nodes.now) (operations_of p.operations.now)) res.old }
    ensures work_after { let p = program.entry in work.new ≡ overwritten (replicate (worked p.qubits p.bits p.operations.now) (pos 0)) work.old }
{
    let d = power(program.qubits as u64) as usize;
    let banks = power(f.counts.splits) as usize;
    let at = run_program(work, program, masks, d, banks);
    let bank = Bank {
        at,
        d,
        count: banks,
    };
    deliver(res, work, bank, program.bits);
    let used = ProgramSizes::of(f, program.qubits).work_words() as usize;
    clear(work, 0, used);
}

// The channel of a Pauli program. A refusal leaves both buffers as they were.
// Kept: `circuit_channel` of judge::call has these three lines as well, with a judge and a run of its own; a function of both would take these two as closures.
pub fn pauli_channel(program: Program, limits: Limits, res: &mut [i64], work: &mut [i64]) -> Verdict
    ensures value { let p = program.entry in result ≡ verdict_of p.qubits p.bits p.store.now limits p.nodes.now p.operations.now res.old work.old }
    ensures res_after { let p = program.entry in res.new ≡ result_after p.qubits p.bits p.store.now limits p.nodes.now p.operations.now res.old work.old }
    ensures work_after { let p = program.entry in work.new ≡ work_after p.qubits p.bits p.store.now limits p.nodes.now p.operations.now res.old work.old }
{
    let mut masks = [Mask::identity(); MAX_NODES];
    let (r, w) = (res.len() as u64, work.len() as u64);
    let f = judge_runnable(program, limits, r, w, &mut masks)?;
    run_and_deliver(f, program, &masks, res, work);
    Ok(())
}
