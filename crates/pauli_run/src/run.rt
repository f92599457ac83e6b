// A program's operations, run one after the other on the branches.
// Kept (buffers): d is the dimension of the branches, not a length of the masks beside it; `at` and `to` are places in the one lent work area.
// Kept (together): work is lent to be written; a struct of it and of places in it would be made for each step, and taken apart there.
ghost use Rattle.std.specs.Prelude.{◌≡◌, List, ◌*◌, ◌^◌};
ghost use Rattle.pauli_nodes.specs.Nodes.{Node};
ghost use Rattle.pauli_nodes.specs.Operations.{axis, splits};
ghost use Rattle.pauli_nodes.specs.Inner.Masks.{ref_mask};
ghost use Rattle.pauli_words.specs.Inner.Code.{operation_in};
ghost use Rattle.pauli_run.specs.Inner.Operators.{place_after, stepped};
ghost use Rattle.pauli_run.specs.Inner.Run.{Operating, Runs, RanAll};

use super::measures::measure;
use branches::bank::{Bank, branch_size, start_branch};
use gate::GATE;
use gate::judge::read_gate;
use pauli_steps::rows::Axis;
use pauli_turns::turn;
use pauli_words::Program;
use pauli_words::masks::{Mask, referred};
use pauli_words::operations::Operation;

// Send the branches of a bank to their products with the operators of an operation, in their places, or in a bank at `to` where the operation splits them; answers the bank of the products.
fn step_operation(
    work: &mut [i64],
    operation: Operation,
    masks: &[Mask],
    made: u32,
    from: Bank,
    to: usize,
) -> Bank
    requires { Operating work.old masks.now (operation_in operation) made from.at to from.d from.count }
    ensures bank { let o = operation_in operation in result ≡ record from { at = place_after o from.at to; count = from.count * 2 ^ splits o } }
    ensures words { let o = operation_in operation in work.new ≡ stepped work.old from.d (ref_mask masks.now (axis o)) made from.at (place_after o from.at to) from.count o }
{
    let axis = Axis::from(referred(masks, operation.axis()));
    match operation {
        Operation::Rotate { eighths, .. } => {
            turn(work, axis, eighths, None, from);
            from
        }
        Operation::RotateIf {
            eighths,
            outcome,
            ..
        } => {
            turn(work, axis, eighths, Some(made - 1 - outcome), from);
            from
        }
        Operation::Measure { bit, .. } => measure(work, axis, from, to, bit),
    }
}

// Run a program from the identity with its store; answers where the last bank lies.
pub fn run_operations(
    work: &mut [i64],
    program: Program,
    masks: &[Mask],
    d: usize,
    banks: usize,
) -> usize
    requires { (nodes : List Node) × Runs work.old program.operations.now masks.now program.store.now program.qubits d banks nodes }
    ensures { let p = program.entry in RanAll work.old work.new p.operations.now masks.now p.store.now p.qubits d banks result }
{
    let half = banks * branch_size(d);
    start_branch(work, 0, d, program.store);
    let mut bank = Bank { at: 0, d, count: 1 };
    let mut made = 0;
    for i in 0..program.operations.len() / GATE {
        let operation = Operation::of(read_gate(program.operations, i * GATE));
        bank = step_operation(work, operation, masks, made, bank, half - bank.at);
        made += operation.splits();
    }
    bank.at
}
