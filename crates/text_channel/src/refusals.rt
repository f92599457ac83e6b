// Why a text has no channel, for people.
ghost use Rattle.std.specs.Prelude.{◌≡◌, ◌≤◌, ◌/◌, length};
ghost use Rattle.gate.specs.Gate.{gate_size};
ghost use Rattle.text.specs.Page.{page, write};
ghost use Rattle.answer_lines.specs.Lines.{refused_text};
ghost use Rattle.statements.specs.Statements.{gate_count};
ghost use Rattle.text_sides.specs.Sides.{words_read};
ghost use Rattle.text_channel.specs.Refusals.{gate_of, fault, no_place, fault_at, fault_of, faulty_gate, refusal_text};

use crate::Refused;
use answer_lines::{Fault, Which, put_refused};
use answers::places::place_of;
use gate::GATE;
use statements::find_gate;
use text::page::Writer;
use text_sides::NoChannel;
use verdict::Refusal;

// The gate that a refusal names, if it names one.
fn gate_of(refusal: Refusal) -> Option<usize>
    ensures { result ≡ gate_of refusal }
{
    match refusal {
        Refusal::UnsupportedAt(i) => Some(i),
        Refusal::OperandAt(i) => Some(i),
        Refusal::MalformedAt(i) => Some(i),
        _ => None,
    }
}

// A refusal that points at no byte.
// Kept: the zeros are those of `Fault`, which the C interface answers.
pub(super) fn no_place(refusal: Refusal, gates: usize) -> Fault
    ensures { result ≡ fault refusal 0 no_place gates }
{
    Fault {
        refusal,
        position: 0,
        line: 0,
        column: 0,
        gates,
    }
}

// A refusal at a byte of the text.
fn fault_at(text: &[u8], refusal: Refusal, position: usize) -> Fault
    ensures { result ≡ fault_at text.now refusal position }
{
    let p = place_of(text, position);
    Fault {
        refusal,
        position,
        line: p.line,
        column: p.column,
        gates: 0,
    }
}

// How many gates a text has.
fn gates_in(text: &[u8]) -> usize
    ensures { result ≡ gate_count text.now }
{
    find_gate(text, text.len()).before
}

// Why a text has no channel.
fn fault_of(text: &[u8], why: NoChannel) -> Fault
    ensures { result ≡ fault_of text.now why }
{
    match why {
        NoChannel::Refused(_, refusal) => match gate_of(refusal) {
            Some(i) => fault_at(text, refusal, find_gate(text, i).position),
            None => no_place(refusal, 0),
        },
        NoChannel::Faulty(f) => {
            if f.refusal == Refusal::ShortBuffer {
                return no_place(f.refusal, gates_in(text));
            }
            fault_at(text, f.refusal, f.position)
        }
    }
}

// The words of the gate at fault, if one is named, among those read.
// Kept: empty where none is named, as `put_refused` takes it.
fn faulty_gate(gates: &[u32], why: NoChannel) -> &[u32]
    requires { words_read why ≤ length gates.now }
    ensures { result.now ≡ faulty_gate gates.now why }
{
    if let NoChannel::Refused(reading, refusal) = why {
        if let Some(i) = gate_of(refusal) {
            if i < reading.words / GATE {
                return &gates[i * GATE..(i + 1) * GATE];
            }
        }
    }
    &[]
}

// The answer for a text that has no channel.
pub fn refuse(out: &mut [u8], which: Which, text: &[u8], gates: &[u32], why: NoChannel) -> Refused
    requires { words_read why ≤ length gates.now }
    ensures fault { result.fault ≡ fault_of text.now why }
    ensures text { page out.new result.bytes ≡ write (page out.old 0) (refusal_text which text.now gates.now why) }
{
    let fault = fault_of(text, why);
    let room = gates.len() / GATE;
    let mut w = Writer::new(out);
    put_refused(&mut w, which, fault, faulty_gate(gates, why), room);
    Refused { fault, bytes: w.at }
}
