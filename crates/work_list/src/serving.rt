// The answer to one pair: both circuits judged and weighed, and, where the allowance reaches, run and compared. The lent buffers are zero before and after.
// Kept (together): the buffers are lent to be written; of a struct of such loans each clause would name the last values by their nesting, `lent.exit.1.1.0.now`, in place of `work.new`.
ghost use Rattle.std.specs.Prelude.{◌≡◌, ◌≤◌, length, IfOk};
ghost use Rattle.circuit.specs.Limits.{ceilings};
ghost use Rattle.compare.specs.Compare.{compare_of};
ghost use Rattle.pair_list.specs.Inner.Spots.{circuit_in, pair_in};
ghost use Rattle.work_list.specs.Serving.{lent, answer_to};
ghost use Rattle.work_list.specs.Inner.Weighing.{Blank, delivers, weighed, Ready};

use crate::Answer;
use circuit::Circuit;
use circuit::limits::Limits;
use circuit::questions::judge_circuit;
use circuit::sizes::{Branches, Rows, terms_needed};
use compare::{Comparison, compare};
use gate::GATE;
use judge::call::circuit_channel;
use pair_list::Pair;
use verdict::Refusal;

// Asks the questions of circuit_channel, and counts the terms of what is accepted.
fn weigh(c: Circuit, limits: Limits, res: u64, work: u64) -> Result<u64, Refusal>
    ensures value { result ≡ weighed (circuit_in c.entry) limits res work }
    ensures small { IfOk result (λ terms. terms ≤ ceilings.max_multiply_terms) }
{
    let splits = judge_circuit(c, limits, res, work)?;
    let gates = (c.gates.len() / GATE) as u64;
    Ok(terms_needed(gates, Branches::of(splits), Rows::of(c.qubits)))
}

// The channel of a circuit, in work words that are zero before and after.
fn run(c: Circuit, limits: Limits, res: &mut [i64], work: &mut [i64])
    requires { Blank work.old }
    ensures res_after { res.new ≡ delivers limits (circuit_in c.entry) res.old work.old }
    ensures work_unchanged { work.new ≡ work.old }
{
    let _ = circuit_channel(c, limits, res, work);
}

// Runs both circuits of a pair and compares their channels.
fn run_pair(
    pair: Pair,
    limits: Limits,
    left: &mut [i64],
    right: &mut [i64],
    work: &mut [i64],
) -> Result<Comparison, Refusal>
    requires { Blank left.old × (Blank right.old × Blank work.old) }
    ensures value { result ≡ compare_of (delivers limits (circuit_in pair.entry.left) left.old work.old) (delivers limits (circuit_in pair.entry.right) right.old work.old) }
    ensures left_unchanged { left.new ≡ left.old }
    ensures right_unchanged { right.new ≡ right.old }
    ensures work_unchanged { work.new ≡ work.old }
{
    run(pair.left, limits, left, work);
    run(pair.right, limits, right, work);
    let comparison = compare(left, right);
    left.fill(0);
    right.fill(0);
    comparison
}

// The answer to a pair, where `spent` of the allowance is spent: the left circuit's refusal, the right one's, passed over, or what compare finds.
pub fn serve(
    pair: Pair,
    limits: Limits,
    allowance: u64,
    spent: u64,
    left: &mut [i64],
    right: &mut [i64],
    work: &mut [i64],
) -> Answer
    requires { Ready spent allowance left.old right.old work.old }
    ensures value { result ≡ answer_to (lent limits left.old right.old work.old allowance) spent (pair_in pair.entry) }
    ensures left_unchanged { left.new ≡ left.old }
    ensures right_unchanged { right.new ≡ right.old }
    ensures work_unchanged { work.new ≡ work.old }
{
    let scratch = work.len() as u64;
    let x = match weigh(pair.left, limits, left.len() as u64, scratch) {
        Ok(terms) => terms,
        Err(refusal) => return Answer::LeftRefused(refusal),
    };
    let y = match weigh(pair.right, limits, right.len() as u64, scratch) {
        Ok(terms) => terms,
        Err(refusal) => return Answer::RightRefused(refusal),
    };
    let cost = x + y;
    if allowance - spent < cost {
        return Answer::PassedOver { cost };
    }
    let comparison = run_pair(pair, limits, left, right, work);
    Answer::Compared { cost, comparison }
}
