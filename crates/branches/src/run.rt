// A circuit's gates, run one after the other on the branches.
// Kept (buffers, together): a gate by its place among the words of all gates; `to` is a place in the one lent work area, as a bank is; d and `banks` are the caller's counts; n beside the store is the number of qubits, and no length.
ghost use Rattle.std.specs.Prelude.{◌≡◌, ◌≢◌, ◌+◌, ◌*◌, ◌≤◌, length};
ghost use Rattle.gate.specs.Gate.{gate_at, gate_size, splits};
ghost use Rattle.gate.specs.Operators.{operators};
ghost use Rattle.gate.specs.Inner.Words.{gate_of};
ghost use Rattle.branches.specs.Inner.Run.{gate_stepped, place_after, GateStep, Runs, Ran};

use super::bank::{Bank, branch_size, start_branch};
use super::cores::{turn_listed, turn_phase};
use super::project::Projections;
use super::split::split;
use gate::GATE;
use gate::judge::{GateWords, read_gate};
use gate::rows::{controls, flips};
use gate::tables::{phase_at, place_at};

// Send each branch of a bank to its product with the one operator of a gate that splits none, in the branch's place.
#[inline(always)]
fn turn_gate(work: &mut [i64], g: GateWords, n: u32, bank: Bank, to: usize)
    requires { (splits (gate_of g) ≡ 0) × GateStep work.old (gate_of g) n bank.d bank.at to bank.count }
    ensures { work.new ≡ gate_stepped work.old n bank.d bank.at bank.at bank.count (gate_of g) }
{
    let m = flips(g, n);
    let held = controls(g, n);
    match phase_at(g) {
        Some(k) => turn_phase(work, m, held, k, bank),
        None => turn_listed(work, m, held, place_at(g), bank),
    }
}

// Kept: not inlined, so that a gate that splits nothing has no part in the rows of two operators.
// Send the branches of a bank to their products with both operators of a gate that splits them, in a bank at `to`; answers that bank.
#[inline(never)]
fn split_gate(work: &mut [i64], g: GateWords, n: u32, from: Bank, to: usize) -> Bank
    requires { (splits (gate_of g) ≢ 0) × GateStep work.old (gate_of g) n from.d from.at to from.count }
    ensures bank { result ≡ record from { at = to; count = from.count * length (operators (gate_of g)) } }
    ensures words { work.new ≡ gate_stepped work.old n from.d from.at to from.count (gate_of g) }
{
    let bit = g.bit();
    let by = Projections {
        mask: flips(g, n),
        resets: bit.is_none(),
    };
    split(work, &by, from, to, bit);
    Bank {
        at: to,
        d: from.d,
        count: from.count * 2,
    }
}

// Send the branches of a bank to their products with the operators of the gate at `at`, in their places, or in a bank at `to` where the gate splits them; answers the bank of the products.
fn step_gate(work: &mut [i64], gates: &[u32], at: usize, n: u32, from: Bank, to: usize) -> Bank
    requires gate { at + gate_size ≤ length gates.now }
    requires branches { GateStep work.old (gate_at gates.now at) n from.d from.at to from.count }
    ensures bank { let g = gate_at gates.now at in result ≡ record from { at = place_after g from.at to; count = from.count * length (operators g) } }
    ensures words { let g = gate_at gates.now at in work.new ≡ gate_stepped work.old n from.d from.at (place_after g from.at to) from.count g }
{
    let g = read_gate(gates, at);
    if g.splits() != 0 {
        return split_gate(work, g, n, from, to);
    }
    turn_gate(work, g, n, from, to);
    from
}

// Run a circuit from the identity with a store of bytes; answers where the last bank lies.
pub fn run_gates(
    work: &mut [i64],
    gates: &[u32],
    store: &[u8],
    n: u32,
    d: usize,
    banks: usize,
) -> usize
    requires { Runs work.old gates.now store.now n d banks }
    ensures { Ran work.old work.new gates.now store.now n d banks result }
{
    let half = banks * branch_size(d);
    let total = gates.len() / GATE;
    start_branch(work, 0, d, store);
    let mut bank = Bank { at: 0, d, count: 1 };
    for i in 0..total {
        bank = step_gate(work, gates, i * GATE, n, bank, half - bank.at);
    }
    bank.at
}
