// Rotations about an axis, by eighths, of the branches of a bank in their places.
// Kept (buffers, together): places in the one lent buffer, as in `branches::bank`; a pair's numbers go beside the turns of two rows, of which a struct would be made for each pair of rows.
// Kept (switches): the arms hand constants to one function that is written into each of them, as in `rows`.
// Kept (kinds): t and u count quarter turns, and k eighths, as in the words of a program.
// Kept (facts): t, u < 4 and k < 8 are known of an axis and of a program that passed the questions; a type of each would be made for each row.
#![tactic(auto)]

ghost use Rattle.std.specs.Prelude.{◌≡◌, ◌+◌, ◌*◌, ◌/◌, ◌%◌, ◌<◌, IfSome};
ghost use Rattle.std.proofs.lemmas.List.Edits.{sets};
ghost use Rattle.exact.specs.Exact.{number_of};
ghost use Rattle.exact.specs.Inner.Sizes.{Within, room_numerator};
ghost use Rattle.gate.specs.Inner.Rows.{entry_in};
ghost use Rattle.share.specs.Share.{with_numerators};
ghost use Rattle.rows.specs.Inner.Rows.{held_words, combined_row, Mixing, mixed};
ghost use Rattle.branches.specs.Inner.Step.{Turning, row_numerators, row_sum};
ghost use Rattle.pauli_program.specs.Operators.{turn_by};
ghost use Rattle.pauli_steps.specs.Inner.Rows.{Level, turned_number, pair_of, rows_about};
ghost use Rattle.pauli_turns.specs.Inner.Turns.{Folding, form_of, is_turned, outcome_number, Rotating, rotated};

mod sums;

use branches::bank::{Bank, branch_size, share_matrix};
use channel::layout::ENTRY;
use pauli_steps::coefficients::{Pair, turning};
use pauli_steps::rows::{Axis, turned4};
use rows::{fold_row, mix_constants};
use sums::{are_apart, mix_by_sums};

// The numerators of a number.
type Number = [i64; 4];

// Make the row at p x times itself plus i^t·y times the row at q, and the row at q x times itself plus i^u·y times the row at p, both as they were; d numbers each.
#[inline(always)]
fn mix_turned(work: &mut [i64], x: Number, y: Number, t: u32, u: u32, p: usize, q: usize, d: usize)
    requires turns { (t < 4) × ((u < 4) × Within room_numerator (number_of y)) }
    requires mixing { Mixing work.old (number_of x) (turned_number y t) p (number_of x) (turned_number y u) q d }
    ensures { work.new ≡ mixed work.old (number_of x) (turned_number y t) p (number_of x) (turned_number y u) q d }
{
    mix_constants(work, x, turned4(y, t), p, x, turned4(y, u), q, d);
}

// Kept: not inlined, so that the loops with constants beside it stay small.
// The same, for any turns.
#[inline(never)]
fn mix_any(work: &mut [i64], x: Number, y: Number, t: u32, u: u32, p: usize, q: usize, d: usize)
    requires turns { (t < 4) × ((u < 4) × Within room_numerator (number_of y)) }
    requires mixing { Mixing work.old (number_of x) (turned_number y t) p (number_of x) (turned_number y u) q d }
    ensures { work.new ≡ mixed work.old (number_of x) (turned_number y t) p (number_of x) (turned_number y u) q d }
{
    mix_turned(work, x, y, t, u, p, q, d);
}

// Kept: a type for each way, so that a number of eighths has the loops of its own way alone: a function with those of both would be too large to be written into its caller.
// A way to mix two rows of an axis that is its own adjoint: i^t times i^u is 1.
trait Way {
    // As `mix_turned`.
    fn mix(work: &mut [i64], x: Number, y: Number, t: u32, u: u32, p: usize, q: usize, d: usize)
        requires turns { (t < 4) × ((u < 4) × Within room_numerator (number_of y)) }
        requires inverse { (t + u) % 4 ≡ 0 }
        requires mixing { Mixing work.old (number_of x) (turned_number y t) p (number_of x) (turned_number y u) q d }
        ensures { work.new ≡ mixed work.old (number_of x) (turned_number y t) p (number_of x) (turned_number y u) q d };
}

// By products with each of the numbers: of an even number of eighths.
struct ByProducts;

impl Way for ByProducts {
    #[inline(always)]
    fn mix(work: &mut [i64], x: Number, y: Number, t: u32, u: u32, p: usize, q: usize, d: usize) {
        mix_turned(work, x, y, t, u, p, q, d);
    }
}

// By sums and differences: of an odd number of eighths.
struct BySums;

impl Way for BySums {
    #[inline(always)]
    fn mix(work: &mut [i64], x: Number, y: Number, t: u32, u: u32, p: usize, q: usize, d: usize) {
        if are_apart(x, y) {
            mix_by_sums(work, x, t, u, p, q, d);
            return;
        }
        mix_any(work, x, y, t, u, p, q, d);
    }
}

// As `mix_turned`: in the way W, by constants, where t and u are those of an axis that is its own adjoint: both are 0 or 2, or one is 1 and the other 3.
#[inline(always)]
fn mix<W: Way>(work: &mut [i64], x: Number, y: Number, t: u32, u: u32, p: usize, q: usize, d: usize)
    requires turns { (t < 4) × ((u < 4) × Within room_numerator (number_of y)) }
    requires mixing { Mixing work.old (number_of x) (turned_number y t) p (number_of x) (turned_number y u) q d }
    ensures { work.new ≡ mixed work.old (number_of x) (turned_number y t) p (number_of x) (turned_number y u) q d }
{
    match (t, u) {
        (0, 0) => W::mix(work, x, y, 0, 0, p, q, d),
        (1, 3) => W::mix(work, x, y, 1, 3, p, q, d),
        (2, 2) => W::mix(work, x, y, 2, 2, p, q, d),
        (3, 1) => W::mix(work, x, y, 3, 1, p, q, d),
        _ => mix_any(work, x, y, t, u, p, q, d),
    }
}

// Make the row at p x times itself plus i^t·y times itself; d numbers.
#[inline(always)]
fn fold_by(work: &mut [i64], x: Number, y: Number, t: u32, p: usize, d: usize)
    requires turns { (t < 4) × Within room_numerator (number_of y) }
    requires row { Folding work.old (number_of x) (turned_number y t) p d }
    ensures { work.new ≡ with_numerators work.old p d (combined_row work.old (number_of x) p (turned_number y t) p) }
{
    fold_row(work, &x, &turned4(y, t), p, d);
}

// Kept: not inlined, as `mix_any`.
// The same, for any turns.
#[inline(never)]
fn fold_any(work: &mut [i64], x: Number, y: Number, t: u32, p: usize, d: usize)
    requires turns { (t < 4) × Within room_numerator (number_of y) }
    requires row { Folding work.old (number_of x) (turned_number y t) p d }
    ensures { work.new ≡ with_numerators work.old p d (combined_row work.old (number_of x) p (turned_number y t) p) }
{
    fold_by(work, x, y, t, p, d);
}

// The same, by constants where t is that of an axis that is its own adjoint: 0 or 2.
#[inline(always)]
fn fold_turned(work: &mut [i64], x: Number, y: Number, t: u32, p: usize, d: usize)
    requires turns { (t < 4) × Within room_numerator (number_of y) }
    requires row { Folding work.old (number_of x) (turned_number y t) p d }
    ensures { work.new ≡ with_numerators work.old p d (combined_row work.old (number_of x) p (turned_number y t) p) }
{
    match t {
        0 => fold_by(work, x, y, 0, p, d),
        2 => fold_by(work, x, y, 2, p, d),
        _ => fold_any(work, x, y, t, p, d),
    }
}

// Write the numerators of the operator times the matrix at `at` over that matrix. Row r and its partner are made of each other alone, and both are made where the first of them is come to.
#[inline(always)]
fn turn_rows<W: Way>(work: &mut [i64], axis: Axis, pair: Pair, at: usize, d: usize)
    requires { Level pair × Turning work.old axis.flips (rows_about (form_of axis) pair) at d }
    ensures { work.new ≡ with_numerators work.old at (d * d) (λ i. row_numerators work.old axis.flips (rows_about (form_of axis) pair) at d (i / d) (i % d)) }
{
    let x = pair.own.n;
    let y = pair.other.n;
    for r in 0..d {
        let s = r ^ axis.flips;
        let t = axis.turns_in(r);
        let p = at + r * d * ENTRY;
        if r < s {
            let q = at + s * d * ENTRY;
            mix::<W>(work, x, y, t, axis.turns_in(s), p, q, d);
        } else if r == s {
            fold_turned(work, x, y, t, p, d);
        }
    }
}

// Write the operator times the matrix at `at` over that matrix. Numerators over 1 are in their shared form.
#[inline(always)]
fn turn_matrix<W: Way>(work: &mut [i64], axis: Axis, pair: Pair, at: usize, d: usize)
    requires { Level pair × Turning work.old axis.flips (rows_about (form_of axis) pair) at d }
    ensures { work.new ≡ sets work.old at (held_words (d * d) (λ i. row_sum work.old axis.flips (entry_in (rows_about (form_of axis) pair)) at d (i / d) (i % d))) }
{
    let n = d * d;
    let before = work[at + n * ENTRY] as u32;
    turn_rows::<W>(work, axis, pair, at, d);
    let e = before + pair.own.e;
    if e == 0 {
        return;
    }
    share_matrix(work, at, n, e);
}

// Write the identity times the matrix at `at` over that matrix: its numerators stay. Numerators over 1 are in their shared form.
#[inline(always)]
fn keep_matrix(work: &mut [i64], axis: Axis, at: usize, d: usize)
    requires { Turning work.old axis.flips (rows_about (form_of axis) (pair_of (turn_by 0))) at d }
    ensures { work.new ≡ sets work.old at (held_words (d * d) (λ i. row_sum work.old axis.flips (entry_in (rows_about (form_of axis) (pair_of (turn_by 0)))) at d (i / d) (i % d))) }
{
    let n = d * d;
    let e = work[at + n * ENTRY] as u32;
    if e == 0 {
        return;
    }
    share_matrix(work, at, n, e);
}

// Whether branch j is turned: any is, or where an outcome is read, at this bit of j, the one where it was 1.
#[inline(always)]
fn is_turned(reads: Option<u32>, j: usize) -> bool
    requires { IfSome reads (λ s. s < 64) }
    ensures { result ≡ is_turned reads (outcome_number reads j) }
{
    match reads {
        Some(shift) => (j >> shift) & 1 == 1,
        None => true,
    }
}

// Send each branch of a bank to its product, in the branch's place; stores stay.
#[inline(always)]
fn turn_by<W: Way>(work: &mut [i64], axis: Axis, k: u32, reads: Option<u32>, bank: Bank)
    requires { Rotating work.old (form_of axis) k reads bank.at bank.d bank.count }
    ensures { work.new ≡ rotated work.old (form_of axis) k reads bank.at bank.d bank.count }
{
    let size = branch_size(bank.d);
    for j in 0..bank.count {
        let at = bank.at + j * size;
        if is_turned(reads, j) {
            turn_matrix::<W>(work, axis, *turning(k), at, bank.d);
        } else {
            keep_matrix(work, axis, at, bank.d);
        }
    }
}

// Kept: a function for each number of eighths, never inlined into its caller, which would then be too large for the loops in it to be written out by their constants.
// The same, by K eighths, in the way W.
#[inline(never)]
fn turn_eighths<W: Way, const K: u32>(work: &mut [i64], axis: Axis, reads: Option<u32>, bank: Bank)
    requires { Rotating work.old (form_of axis) K reads bank.at bank.d bank.count }
    ensures { work.new ≡ rotated work.old (form_of axis) K reads bank.at bank.d bank.count }
{
    turn_by::<W>(work, axis, K, reads, bank);
}

// Kept: inlined, so that an axis and a bank are written down once for a call, not again for the next: words written in other sizes than they are read back in are waited for.
// The same, by k eighths.
#[inline(always)]
pub fn turn(work: &mut [i64], axis: Axis, k: u32, reads: Option<u32>, bank: Bank)
    requires { Rotating work.old (form_of axis) k reads bank.at bank.d bank.count }
    ensures { work.new ≡ rotated work.old (form_of axis) k reads bank.at bank.d bank.count }
{
    match k {
        0 => turn_eighths::<ByProducts, 0>(work, axis, reads, bank),
        1 => turn_eighths::<BySums, 1>(work, axis, reads, bank),
        2 => turn_eighths::<ByProducts, 2>(work, axis, reads, bank),
        3 => turn_eighths::<BySums, 3>(work, axis, reads, bank),
        4 => turn_eighths::<ByProducts, 4>(work, axis, reads, bank),
        5 => turn_eighths::<BySums, 5>(work, axis, reads, bank),
        6 => turn_eighths::<ByProducts, 6>(work, axis, reads, bank),
        _ => turn_eighths::<BySums, 7>(work, axis, reads, bank),
    }
}
