// Refusals in words: what is wrong, and what to do.
ghost use Rattle.std.specs.Prelude.{◌≡◌, Err};
ghost use Rattle.text.specs.Inner.Puts.{Puts};
ghost use Rattle.answers.specs.Reasons.{reason};

use text::page::Writer;
use verdict::{Refusal, Verdict};

fn sentence(refusal: Refusal) -> &'static [u8]
    ensures { result.now ≡ reason (Err refusal) }
{
    match refusal {
        Refusal::OverLimit =>
            b"The circuit is over a limit on qubits, classical bits, gates, branches or size: make it smaller, or raise that limit, at most to its ceiling.",
        Refusal::UnsupportedAt(_) =>
            b"This gate is not supported: write it with gates that are, where rz turns by multiples of pi/4.",
        Refusal::OperandAt(_) =>
            b"This gate names a qubit or a bit that is not there, or a qubit twice: name different ones, numbered from 0.",
        Refusal::BadStore =>
            b"The initial store does not fit the circuit: give one value, 0 or 1, for each classical bit, at most 64 of them.",
        Refusal::MalformedAt(_) =>
            b"This gate's words are malformed, or the list's length is no multiple of 5: give five words a gate, a known kind first, and 0 where a kind uses no word.",
        Refusal::OverCeiling => b"A limit is above its ceiling: lower it to the ceiling.",
        Refusal::TooHeavy => b"The gates h, ch and sx number more than 56: use fewer of them.",
        Refusal::ShortBuffer =>
            b"A buffer is too short for the result or for the work: lend a longer one.",
        Refusal::TooLarge =>
            b"A number is too large: use numbers that stay in range, and factors that are narrow.",
        Refusal::Malformed =>
            b"A scalar, matrix or channel is malformed: hand in words as the judge leaves them.",
        Refusal::BadLayers =>
            b"The ends of the layers do not rise from at least 1 to the number of gates: correct their list.",
        Refusal::ClashAt(_) =>
            b"This gate shares a qubit or a bit with an earlier gate of its layer: move it to another layer.",
        Refusal::BadText =>
            b"The text is not OpenQASM 2 in the form that is read: correct it at this place.",
        Refusal::UnknownNameAt(_) =>
            b"This gate or register is not known here: use a gate that can be read and written, or a declared register.",
        Refusal::NotScheduleAt(_) =>
            b"The new list is no schedule of the old one at this gate: list each old gate once, by its old position, and keep the order of gates that share a qubit or a bit.",
        Refusal::ZeroBlock =>
            b"A block of the channel is zero in every entry: leave such blocks out.",
        Refusal::BadNodeAt(_) =>
            b"This node names a qubit that is not there, or a node that does not come before it: name qubits from 0 and earlier nodes.",
        Refusal::BadAxisAt(_) =>
            b"The axis of this operation is no node of the program, or is not its own adjoint: name a node, with a phase that makes it Hermitian.",
        Refusal::NoOutcomeAt(_) =>
            b"This operation asks for an outcome that is not yet made: name one of an earlier measure.",
        Refusal::NoPlace =>
            b"There is no free place for another gate: lend more words, for at most 1,024 gates.",
        Refusal::NoGate => b"There is no gate at this position: name one that holds a gate.",
        Refusal::NotHermitianAt(_) =>
            b"This block of the channel is not Hermitian: hand in a channel as the judge leaves it.",
        Refusal::NotPlainAt(_) =>
            b"This gate or block is outside the plain profile, whose numbers have no square root of 2: keep to the gates of the profile.",
        Refusal::TooManyPairs => b"There are more than 32 pairs: give them in several lists.",
        Refusal::BadCounts =>
            b"The words are not those of a kept circuit as its calls leave them: start it anew.",
    }
}

// Puts the sentence of a verdict.
pub fn put_reason(out: &mut Writer<'_>, v: Verdict)
    ensures { Puts out.old (reason v) out.new }
{
    match v {
        Ok(()) => out.put_all(b"The circuit is accepted."),
        Err(refusal) => out.put_all(sentence(refusal)),
    }
}
