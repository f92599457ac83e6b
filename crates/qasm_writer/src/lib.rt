// A circuit written as a text of OpenQASM 2.
#![tactic(auto)]

pub mod printer;
mod room;

ghost use Rattle.std.specs.Prelude.{◌≡◌};
ghost use Rattle.verdict.specs.Questions.{first_no};
ghost use Rattle.gate.specs.Gate.{gates_of};
ghost use Rattle.qasm_writer.specs.Call.{along, formed_at, named_at, word_questions, write_reply, room_after};

use crate::printer::{name, put_text};
use crate::room::is_within;
use gate::GATE;
use gate::judge::read_gate;
use text::page::Writer;
use verdict::{Refusal, Verdict};

// Kept: the test and the refusal of `judge_formed` and `judge_named` are their own; one function would take both as closures, and its clause would say what they answer, for two callers.
fn judge_formed(words: &[u32]) -> Verdict
    ensures { result ≡ first_no (along formed_at 0 (gates_of words.now)) }
{
    for i in 0..words.len() / GATE {
        let g = read_gate(words, i * GATE);
        if !g.is_formed() {
            return Err(Refusal::MalformedAt(i));
        }
    }
    Ok(())
}

fn judge_named(words: &[u32]) -> Verdict
    ensures { result ≡ first_no (along named_at 0 (gates_of words.now)) }
{
    for i in 0..words.len() / GATE {
        let g = read_gate(words, i * GATE);
        if name(g).is_none() {
            return Err(Refusal::UnknownNameAt(i));
        }
    }
    Ok(())
}

// Questions 2 and 4, then that each kind has a name.
fn judge_words(words: &[u32]) -> Verdict
    ensures { result ≡ first_no (word_questions words.now) }
{
    if words.len() % GATE != 0 {
        return Err(Refusal::MalformedAt(0));
    }
    judge_formed(words)?;
    judge_named(words)
}

// Kept: the bytes lie in the lent room: how many there are is the answer, and that of the C interface.
// Writes the text of a circuit into `out`: how many bytes it has. A refusal leaves `out` as it was.
// Kept (together): the two counts and the words go on to `is_within` and `put_text` alone; a struct for them, with no store, would be built by each caller of this one function to be taken apart here.
pub fn write_qasm(qubits: u32, bits: u32, gates: &[u32], out: &mut [u8]) -> Result<usize, Refusal>
    ensures value { result ≡ write_reply qubits bits gates.now out.old }
    ensures out_after { out.new ≡ room_after qubits bits gates.now out.old }
{
    judge_words(gates)?;
    if !is_within(qubits, bits, gates, out.len()) {
        return Err(Refusal::ShortBuffer);
    }
    let mut w = Writer::new(out);
    put_text(&mut w, qubits, bits, gates);
    Ok(w.at)
}
