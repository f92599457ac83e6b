// What a gate list asks for, in one pass over its words.
// Kept (buffers, facts): a gate by its place among the words of all gates, as in `layers` and in `branches::run`.
ghost use Rattle.std.specs.Prelude.{◌≡◌, ℕ, ◌+◌, ◌*◌, ◌/◌, ◌≤◌, ◌<◌, length};
ghost use Rattle.algebra.specs.Lists.{some};
ghost use Rattle.gate.specs.Gate.{Gate, gate_size, gate_at, gates_of};
ghost use Rattle.gate.specs.Inner.Words.{gate_of};
ghost use Rattle.circuit.specs.Footprint.{writes, footprint_of};
ghost use Rattle.circuit.specs.Inner.Footprint.{gates_behind, newly};

use gate::GATE;
use gate::judge::read_gate;

#[derive(Clone, Copy)]
pub struct Footprint {
    // gates
    pub gates: u64,
    // measures and resets
    pub splits: u64,
    // distinct bits measured into
    pub written: u64,
    pub weight: u64,
}

// Whether a gate from gate `first` on measures into the bit.
fn is_written(words: &[u32], first: usize, bit: u32) -> bool
    ensures { result ≡ some (λ (g : Gate). writes g bit) (gates_behind words.now first) }
{
    for i in first..words.len() / GATE {
        let g = read_gate(words, i * GATE);
        if g.writes(bit) {
            return true;
        }
    }
    false
}

// 1 if gate i measures into one of the bits and none of the gates after it does.
// Out of line: few gates measure, and in line it slows the loop over all gates by a third.
#[inline(never)]
fn newly_written(words: &[u32], i: usize, bits: u32) -> u64
    requires { i < length words.now / gate_size }
    ensures { result ≡ newly bits (gate_at words.now (i * gate_size)) (gates_behind words.now (i + 1)) }
{
    let g = read_gate(words, i * GATE);
    g.bit()
        .is_some_and(|bit| bit < bits && !is_written(words, i + 1, bit)) as u64
}

impl Footprint {
    pub fn of(words: &[u32], bits: u32) -> Footprint
        ensures { result ≡ footprint_of bits (gates_of words.now) }
    {
        let count = words.len() / GATE;
        let mut splits: u64 = 0;
        let mut written: u64 = 0;
        let mut weight: u64 = 0;
        for i in 0..count {
            let g = read_gate(words, i * GATE);
            // A gate that weighs does not split.
            if g.weight() != 0 {
                weight += 1;
            } else if g.splits() != 0 {
                splits += 1;
                written += newly_written(words, i, bits);
            }
        }
        Footprint {
            gates: count as u64,
            splits,
            written,
            weight,
        }
    }
}
