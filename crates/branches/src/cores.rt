// A gate that splits no branch, by its two-by-two matrix, applied to the branches of a bank in their places.
// Kept (buffers, together): places in the one lent buffer, as in `bank`; `held` and m are the masks of one gate beside its matrix.
// Kept (switches): the arms hand constants to one function that is written into each of them, as in `rows`.
// Kept (kinds): p is a place in the table of matrices, and k a power of ω, as in `gate::tables`; the arms name their constants.
// Kept (facts): that the two masks have no bit in common is known of a gate; a struct of both would be made at each gate for these four functions.
ghost use Rattle.std.specs.Prelude.{◌≡◌, ◌+◌, ◌*◌, ◌/◌, ◌%◌, ◌<◌, ◌≤◌, length, pos};
ghost use Rattle.std.specs.Int.Bits.{bit_xor};
ghost use Rattle.std.proofs.lemmas.List.Edits.{sets};
ghost use Rattle.exact.specs.Exact.{number_of, narrow_exponent};
ghost use Rattle.gate.specs.Inner.Rows.{entry_in};
ghost use Rattle.gate.specs.Inner.Tables.{core_at, phase_core, one_over, rows_by};
ghost use Rattle.share.specs.Share.{with_numerators};
ghost use Rattle.rows.specs.Inner.Rows.{held_words, Mixing, mixed};
ghost use Rattle.branches.specs.Inner.Step.{Turning, StepInPlace, MasksApart, row_numerators, row_sum, operator_in, turned};

use super::bank::{Bank, branch_size, share_matrix};
use channel::layout::ENTRY;
use gate::tables::{Core, H, SX, X, Y, phase_core};
use rows::mix_constants;

// The numerators of 1 over 2^e.
#[inline(always)]
fn one_over(e: u32) -> [i64; 4]
    requires { e ≤ narrow_exponent }
    ensures { result ≡ one_over e }
{
    [1 << e, 0, 0, 0]
}

// Make row r, at p, and its partner, at q, those of the product.
#[inline(always)]
fn turn_pair(
    work: &mut [i64],
    m: usize,
    held: usize,
    core: Core,
    r: usize,
    p: usize,
    q: usize,
    d: usize,
)
    requires masks { MasksApart held m × ((m < 32) × ((r < 32) × ((r < bit_xor r m) × (core.e ≤ narrow_exponent)))) }
    requires mixing { let R = rows_by held m core in let x = R.row r in let y = R.row (bit_xor r m) in Mixing work.old (number_of x.own) (number_of x.other) p (number_of y.own) (number_of y.other) q d }
    ensures { let R = rows_by held m core in let x = R.row r in let y = R.row (bit_xor r m) in work.new ≡ mixed work.old (number_of x.own) (number_of x.other) p (number_of y.own) (number_of y.other) q d }
{
    let one = one_over(core.e);
    if r & held != held {
        mix_constants(work, one, [0; 4], p, one, [0; 4], q, d);
        return;
    }
    if r & m == 0 {
        let Core { low, high, .. } = core;
        mix_constants(work, low.own, low.other, p, high.own, high.other, q, d);
        return;
    }
    mix_constants(work, [0; 4], one, p, [0; 4], one, q, d);
}

// Write the numerators of the operator times the matrix at `at` over that matrix, pair by pair.
#[inline(always)]
fn turn_rows(work: &mut [i64], m: usize, held: usize, core: Core, at: usize, d: usize)
    requires { MasksApart held m × Turning work.old m (rows_by held m core) at d }
    ensures { work.new ≡ with_numerators work.old at (d * d) (λ i. row_numerators work.old m (rows_by held m core) at d (i / d) (i % d)) }
{
    for r in 0..d {
        let s = r ^ m;
        if r < s {
            let p = at + r * d * ENTRY;
            let q = at + s * d * ENTRY;
            turn_pair(work, m, held, core, r, p, q, d);
        }
    }
}

// Write the operator times the matrix at `at` over that matrix. Numerators over 1 are in their shared form.
#[inline(always)]
fn turn_matrix_by(work: &mut [i64], m: usize, held: usize, core: Core, at: usize, d: usize)
    requires { MasksApart held m × Turning work.old m (rows_by held m core) at d }
    ensures { work.new ≡ sets work.old at (held_words (d * d) (λ i. row_sum work.old m (entry_in (rows_by held m core)) at d (i / d) (i % d))) }
{
    let n = d * d;
    let before = work[at + n * ENTRY] as u32;
    turn_rows(work, m, held, core, at, d);
    let e = before + core.e;
    if e == 0 {
        return;
    }
    share_matrix(work, at, n, e);
}

// Send each branch of a bank to its product, in the branch's place; stores stay.
#[inline(always)]
fn turn_by(work: &mut [i64], m: usize, held: usize, core: Core, bank: Bank)
    requires { let R = rows_by held m core in MasksApart held m × StepInPlace work.old m (operator_in R R) 0 bank.at bank.d bank.count }
    ensures { work.new ≡ turned work.old m (rows_by held m core) bank.at bank.d bank.count }
{
    let size = branch_size(bank.d);
    for j in 0..bank.count {
        turn_matrix_by(work, m, held, core, bank.at + j * size, bank.d);
    }
}

// The same, by matrix p of the table: of h, x, y or sx.
pub fn turn_listed(work: &mut [i64], m: usize, held: usize, p: usize, bank: Bank)
    requires { let R = rows_by held m (core_at p) in (p < 4) × (MasksApart held m × StepInPlace work.old m (operator_in R R) 0 bank.at bank.d bank.count) }
    ensures { work.new ≡ turned work.old m (rows_by held m (core_at p)) bank.at bank.d bank.count }
{
    match p {
        0 => turn_by(work, m, held, H, bank),
        1 => turn_by(work, m, held, X, bank),
        2 => turn_by(work, m, held, Y, bank),
        _ => turn_by(work, m, held, SX, bank),
    }
}

// The same, by the phase diag(1, ω^k).
pub fn turn_phase(work: &mut [i64], m: usize, held: usize, k: u32, bank: Bank)
    requires { let R = rows_by held m (phase_core k) in MasksApart held m × StepInPlace work.old m (operator_in R R) 0 bank.at bank.d bank.count }
    ensures { work.new ≡ turned work.old m (rows_by held m (phase_core k)) bank.at bank.d bank.count }
{
    match k {
        0 => turn_by(work, m, held, phase_core(0), bank),
        1 => turn_by(work, m, held, phase_core(1), bank),
        2 => turn_by(work, m, held, phase_core(2), bank),
        3 => turn_by(work, m, held, phase_core(3), bank),
        4 => turn_by(work, m, held, phase_core(4), bank),
        5 => turn_by(work, m, held, phase_core(5), bank),
        6 => turn_by(work, m, held, phase_core(6), bank),
        7 => turn_by(work, m, held, phase_core(7), bank),
        _ => turn_by(work, m, held, phase_core(k), bank),
    }
}
