// The questions of the gates of a list.
// Kept (buffers): n is the number of qubits, and no place in the words.
ghost use Rattle.std.specs.Prelude.{◌≡◌};
ghost use Rattle.verdict.specs.Questions.{first_no};
ghost use Rattle.gate.specs.Gate.{gates_of};
ghost use Rattle.circuit.specs.Questions.{gates_questions};

use gate::GATE;
use gate::judge::{Asking, read_gate};
use verdict::Verdict;

// Questions 4 to 6, gate by gate.
pub fn judge_gates(words: &[u32], n: u32, asking: Asking) -> Verdict
    ensures { result ≡ first_no (gates_questions asking n 0 (gates_of words.now)) }
{
    for i in 0..words.len() / GATE {
        let g = read_gate(words, i * GATE);
        g.judge(i, n, asking)?;
    }
    Ok(())
}
