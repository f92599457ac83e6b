// The job of the program that lists a channel: the text of a circuit in, the bytes of its answer out.
// Kept (together): three lent buffers, each written; a struct of them would be built for the call, and each clause would name them by their nesting in it.
// Kept (buffers): as in lines.rt, the answer says how many bytes lie in the lent room.
#![tactic(auto)]

mod blocks;
pub mod lines;
mod spaced;

ghost use Rattle.std.specs.Prelude.{◌≡◌};
ghost use Rattle.circuit.specs.Limits.{ceilings};
ghost use Rattle.judge.specs.Call.{result_after, work_after};
ghost use Rattle.text.specs.Page.{page, write};
ghost use Rattle.listing.specs.Answer.{lines_of, answer_of, result_of, work_of};

use self::blocks::put_channel;
use self::lines::{write_no_input, write_refusal};
use circuit::Circuit;
use circuit::limits::Limits;
use circuit_text::input::{MAX_BITS, MAX_NUMBERS, read_input};
use gate::GATE;
use judge::call::circuit_channel;
use text::page::Writer;

// The most bytes of an answer, where the result has 5,200 words.
pub const MAX_LISTING: usize = 202727;

// The listing of a circuit's channel, or the line of its refusal.
fn list_circuit(circuit: Circuit, res: &mut [i64], work: &mut [i64], out: &mut [u8]) -> usize
    ensures lines { let c = circuit.entry in page out.new result ≡ write (page out.old 0) (lines_of c.qubits c.bits c.store.now c.gates.now res.old work.old) }
    ensures res { let c = circuit.entry in res.new ≡ result_after c.qubits c.bits c.store.now ceilings c.gates.now res.old work.old }
    ensures work { let c = circuit.entry in work.new ≡ work_after c.qubits c.bits c.store.now ceilings c.gates.now res.old work.old }
{
    match circuit_channel(circuit, Limits::defaults(), res, work) {
        Ok(()) => {
            let mut w = Writer::new(out);
            put_channel(&mut w, res);
            w.at
        }
        Err(refusal) => write_refusal(out, refusal.number() as u64, refusal.index() as u64),
    }
}

// Puts the answer to a text into `out`, and says how many bytes it has. The two buffers are lent to the judge.
pub fn list(text: &[u8], res: &mut [i64], work: &mut [i64], out: &mut [u8]) -> usize
    ensures answer { page out.new result ≡ write (page out.old 0) (answer_of text.now res.old work.old) }
    ensures res { res.new ≡ result_of text.now res.old work.old }
    ensures work { work.new ≡ work_of text.now res.old work.old }
{
    let mut numbers = [0u32; MAX_NUMBERS];
    let mut store = [0u8; MAX_BITS];
    let Some(read) = read_input(text, &mut numbers, &mut store) else {
        return write_no_input(out);
    };
    let m = read.bits as usize;
    let first = 3 + m;
    let end = first + GATE * read.gates;
    let circuit = Circuit {
        qubits: read.qubits,
        bits: read.bits,
        store: &store[..m],
        gates: &numbers[first..end],
    };
    list_circuit(circuit, res, work, out)
}
