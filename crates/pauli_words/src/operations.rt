// The operations, read from their words and judged in order by the mask forms of the nodes.
ghost use Rattle.std.specs.Prelude.{◌≡◌, ◌/◌, ◌≤◌, length, option_to_list};
ghost use Rattle.verdict.specs.Questions.{first_no};
ghost use Rattle.gate.specs.Gate.{gate_size, gates_of};
ghost use Rattle.gate.specs.Inner.Words.{gate_of};
ghost use Rattle.pauli_nodes.specs.Operations.{axis, bits, splits};
ghost use Rattle.pauli_words.specs.Words.{operation_of, operation_formed};
ghost use Rattle.pauli_words.specs.Questions.{operand_questions, operation_questions, operations_questions};
ghost use Rattle.pauli_words.specs.Inner.Code.{reference_in, operation_in, ReadOperation, JudgedOperation};
ghost use Rattle.pauli_words.specs.Inner.Masks.{mask_fits};

use crate::masks::{Mask, is_axis};
use crate::nodes::Reference;
use gate::GATE;
use gate::judge::{GateWords, read_gate};
use verdict::{Refusal, Verdict};

// A rotation about an axis by eighths of a turn; the same where an earlier outcome was one; and a measurement, into a classical bit or into none.
#[derive(Clone, Copy)]
pub enum Operation {
    Rotate {
        axis: Reference,
        eighths: u32,
    },
    RotateIf {
        axis: Reference,
        eighths: u32,
        outcome: u32,
    },
    Measure {
        axis: Reference,
        bit: Option<u32>,
    },
}

// The kind words.
// Kept: with an enum of the four kinds, `is_formed` and `of` would match on it as they do on these names, and a third match would make it of the word; all else asks for an Operation.
const ROTATE: u32 = 0;

const ROTATE_IF: u32 = 1;

const MEASURE: u32 = 2;

const MEASURE_INTO: u32 = 3;

fn is_formed(w: GateWords) -> bool
    ensures { result ≡ operation_formed (gate_of w) }
{
    let turns = w.b < 4;
    match w.kind {
        ROTATE => turns & ((w.c < 8) & (w.k == 0)),
        ROTATE_IF => turns & (w.c < 8),
        MEASURE => turns & ((w.c == 0) & (w.k == 0)),
        MEASURE_INTO => turns & (w.k == 0),
        _ => false,
    }
}

impl Operation {
    // The operation in five words; a kind that there is not is a measurement.
    pub fn of(w: GateWords) -> Operation
        ensures { operation_in result ≡ operation_of (gate_of w) }
    {
        let axis = Reference {
            node: w.a,
            turns: w.b,
        };
        match w.kind {
            ROTATE => Operation::Rotate { axis, eighths: w.c },
            ROTATE_IF => Operation::RotateIf {
                axis,
                eighths: w.c,
                outcome: w.k,
            },
            MEASURE_INTO => Operation::Measure {
                axis,
                bit: Some(w.c),
            },
            _ => Operation::Measure { axis, bit: None },
        }
    }

    // The operation in five words, if they are well-formed.
    pub fn read(w: GateWords) -> Option<Operation>
        ensures { ReadOperation (gate_of w) result }
    {
        if is_formed(w) {
            Some(Operation::of(w))
        } else {
            None
        }
    }

    pub fn axis(self) -> Reference
        ensures { reference_in result ≡ axis (operation_in self) }
    {
        match self {
            Operation::Rotate { axis, .. } => axis,
            Operation::RotateIf { axis, .. } => axis,
            Operation::Measure { axis, .. } => axis,
        }
    }

    // 1 of a measurement, which makes an outcome and splits each branch.
    pub fn splits(self) -> u32
        ensures { (result ≡ splits (operation_in self)) × (result ≤ 1) }
    {
        match self {
            Operation::Measure { .. } => 1,
            _ => 0,
        }
    }

    // The classical bit that a measurement writes, if it writes one.
    pub fn bit(self) -> Option<u32>
        ensures { option_to_list result ≡ bits (operation_in self) }
    {
        match self {
            Operation::Measure { bit, .. } => bit,
            _ => None,
        }
    }

    // The outcome that a conditional rotation reads, or the bit that a measurement writes.
    fn judge_operand(self, bits: u32, made: u32, i: usize) -> Verdict
        ensures { result ≡ first_no (operand_questions bits made i (operation_in self)) }
    {
        match self {
            Operation::RotateIf { outcome, .. } if outcome >= made => Err(Refusal::NoOutcomeAt(i)),
            Operation::Measure { bit: Some(b), .. } if b >= bits => Err(Refusal::OperandAt(i)),
            _ => Ok(()),
        }
    }
}

// Operation i, where it passes the questions.
fn judge_operation(
    w: GateWords,
    masks: &[Mask],
    bits: u32,
    made: u32,
    i: usize,
) -> Result<Operation, Refusal>
    ensures { JudgedOperation (mask_fits masks.now) bits made i (gate_of w) result }
{
    let Some(operation) = Operation::read(w) else {
        return Err(Refusal::MalformedAt(i));
    };
    if !is_axis(masks, operation.axis()) {
        return Err(Refusal::BadAxisAt(i));
    }
    operation.judge_operand(bits, made, i)?;
    Ok(operation)
}

pub fn judge_operations(words: &[u32], bits: u32, masks: &[Mask]) -> Verdict
    requires { length words.now / gate_size ≤ 1024 }
    ensures { result ≡ first_no (operations_questions (mask_fits masks.now) bits 0 0 (gates_of words.now)) }
{
    let mut made = 0;
    for i in 0..words.len() / GATE {
        let operation = judge_operation(read_gate(words, i * GATE), masks, bits, made, i)?;
        made += operation.splits();
    }
    Ok(())
}
