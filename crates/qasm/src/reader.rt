// A circuit read from its text.
ghost use Rattle.std.specs.Prelude.{◌≡◌, length};
ghost use mathlib.Core.List.{foldl};
ghost use Rattle.qasm.specs.Reading.{step, start, ended, read_of, reply, filled};
ghost use Rattle.qasm.specs.Inner.Left.{tokens_left};

use super::steps::run;
use super::tokens::{HEADER, Tokens, blanks};
use verdict::Refusal;

// What a text says: how many qubits and bits it declares, and how many words its gates have.
// Kept: the words lie in the lent room; a slice of them would hold that loan, and the C interface answers how many there are.
#[derive(Clone, Copy)]
pub struct Reading {
    pub qubits: u32,
    pub bits: u32,
    pub words: usize,
}

// Why a text is refused, and the position of the fault.
// Kept: the C interface answers a position with each refusal, and 0 with the one that has none, ShortBuffer; an Option would be turned back into that 0.
#[derive(Clone, Copy)]
pub struct Fault {
    pub refusal: Refusal,
    pub position: usize,
}

// The tokens behind the header of a text of `size` bytes: judged without writing a word, and then read once more.
// Kept: the size is where a text faults that ends too early; `Tokens` shows the tokens that are left, and no length.
fn read_body(tokens: Tokens, size: usize, gates: &mut [u32]) -> Result<Reading, Fault>
    ensures reply { result ≡ reply (length gates.old) (ended size (foldl step start (tokens_left tokens.entry))) }
    ensures gates { gates.new ≡ filled gates.old (ended size (foldl step start (tokens_left tokens.entry))) }
{
    let s = run(tokens, &mut [])?;
    if !s.due.is_empty() {
        return Err(Fault {
            refusal: Refusal::BadText,
            position: size,
        });
    }
    if gates.len() < s.words {
        return Err(Fault {
            refusal: Refusal::ShortBuffer,
            position: 0,
        });
    }
    run(tokens, gates).unwrap();
    Ok(Reading {
        qubits: s.qubits,
        bits: s.bits,
        words: s.words,
    })
}

// Reads a circuit; its gates' words go to `gates`. Where the text is refused, `gates` is as it was.
#[tactic(auto, using(crate::proofs::Scanning::run_most))]
pub fn read_qasm(text: &[u8], gates: &mut [u32]) -> Result<Reading, Fault>
    ensures reply { result ≡ reply (length gates.old) (read_of text.now) }
    ensures gates { gates.new ≡ filled gates.old (read_of text.now) }
{
    let begin = blanks(text);
    if !text[begin..].starts_with(&HEADER) {
        return Err(Fault {
            refusal: Refusal::BadText,
            position: begin,
        });
    }
    let tokens = Tokens::behind(text, begin + HEADER.len());
    read_body(tokens, text.len(), gates)
}
