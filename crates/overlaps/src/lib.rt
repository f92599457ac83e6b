// Overlaps of a Kraus matrix's entries, written to a block of numerators over one power of two or added to it: integer products and sums, with no lowest form for any entry.
// Kept (buffers, together): a place in each of two buffers: the result, of which the contracts say what all of it becomes, and the words of the branches, where a row is read at two places.
// Kept (facts): that the numerators of a factor are narrow, as in exact.
#![tactic(auto)]

ghost use Rattle.std.specs.Prelude.{◌≡◌, ◌+◌, ◌*◌};
ghost use Rattle.std.proofs.lemmas.List.Edits.{sets};
ghost use Rattle.algebra.specs.Quadratic.{conjugate};
ghost use Rattle.exact.specs.Exact.{numbers, root2, number_of, list_of, narrow_numerator};
ghost use Rattle.exact.specs.Inner.Sizes.{Within};
ghost use Rattle.share.specs.Share.{with_numerators};
ghost use Rattle.overlaps.specs.Inner.Overlap.{raised_at, overlap, raise, added, row_added, upper_added, row_written, upper_written, Raised, Adding, Row, Writable, Starting, Liftable, Upper, Fresh};

use cells::{numerators_at, write_numerators};
use channel::layout::ENTRY;
use exact::numerators::{conj_product, scaled4, sum4};
use exact::ranges::all_zero;
use matrix::words::clear;

// The numerators at q, times 2^s.
fn read_raised(work: &[i64], q: usize, s: u32) -> [i64; 4]
    requires { Raised work.now q s }
    ensures { result ≡ list_of (raised_at s work.now q) }
{
    let y = numerators_at(work, q);
    if s == 0 {
        return y;
    }
    scaled4(y, s)
}

// Add x times the conjugate of the numerators at q of `work`, times 2^s, to the numerators at `at` of `res`; a zero is passed over.
fn add_number(res: &mut [i64], at: usize, x: [i64; 4], work: &[i64], q: usize, s: u32)
    requires { Adding res.old at (number_of x) work.now q s }
    ensures { res.new ≡ sets res.old at (list_of (added res.old at (number_of x) s work.now q)) }
{
    let y = read_raised(work, q, s);
    if all_zero(y) {
        return;
    }
    let p = conj_product(x, y);
    let v = sum4(numerators_at(res, at), p);
    write_numerators(res, at, v);
}

// Add the number at p of `work` times the conjugates of the n numbers from k on, all times 2^s, to the n numbers from `to` on of `res`; a zero is passed over.
fn add_row(res: &mut [i64], to: usize, work: &[i64], p: usize, k: usize, n: usize, s: u32)
    requires { Row res.old to work.now p k n s }
    ensures { res.new ≡ with_numerators res.old to n (row_added res.old to work.now p k s) }
{
    let x = read_raised(work, p, s);
    if all_zero(x) {
        return;
    }
    for c in 0..n {
        add_number(res, to + c * ENTRY, x, work, k + c * ENTRY, s);
    }
}

// The power of two that takes the w numbers at k of `work` over 2^e.
fn raise(work: &[i64], k: usize, w: usize, e: u32) -> u32
    requires { Liftable work.now k w e }
    ensures { result ≡ raise work.now k w e }
{
    e - work[k + w * ENTRY] as u32
}

// Add entry r times the conjugate of entry c of the w numbers from k on of `work`, over 2^e, to entry (r, c) of the block at `out` of `res`, on and above the diagonal.
pub fn add_upper(res: &mut [i64], out: usize, work: &[i64], k: usize, w: usize, e: u32)
    requires { Upper res.old out work.now k w e }
    ensures { res.new ≡ with_numerators res.old out (w * w) (upper_added res.old out work.now k w e) }
{
    let s = raise(work, k, w, e);
    for r in 0..w {
        let p = k + r * ENTRY;
        add_row(res, out + (r * w + r) * ENTRY, work, p, p, w - r, s);
    }
}

// x times the conjugate of y; a zero is not multiplied.
pub fn product_with(x: [i64; 4], y: [i64; 4]) -> [i64; 4]
    requires { Within narrow_numerator (number_of x) × Within narrow_numerator (number_of y) }
    ensures { result ≡ list_of (numbers.◌⊗◌ (number_of x) (conjugate root2 (number_of y))) }
{
    if all_zero(y) {
        return [0, 0, 0, 0];
    }
    conj_product(x, y)
}

// Write x times the conjugates of the n numbers from k on of `work`, times 2^s, to the n numbers from `to` on of `res`.
fn write_row(res: &mut [i64], to: usize, x: [i64; 4], work: &[i64], k: usize, n: usize, s: u32)
    requires { Writable res.old to (number_of x) work.now k n s }
    ensures { res.new ≡ with_numerators res.old to n (λ c. overlap (number_of x) s work.now (k + c * 4)) }
{
    for c in 0..n {
        let p = product_with(x, read_raised(work, k + c * ENTRY, s));
        write_numerators(res, to + c * ENTRY, p);
    }
}

// Write entry r times the conjugates of the entries from r on of the w numbers from k on of `work`, times 2^s, to row r of the block at `out` of `res`, from its diagonal on; zeros to all of the row, if entry r is zero.
fn start_row(res: &mut [i64], out: usize, work: &[i64], k: usize, w: usize, r: usize, s: u32)
    requires { Starting res.old out work.now k w r s }
    ensures { res.new ≡ with_numerators res.old (out + r * w * 4) w (row_written res.old out work.now k w s r) }
{
    let p = k + r * ENTRY;
    let x = read_raised(work, p, s);
    if all_zero(x) {
        clear(res, out + r * w * ENTRY, w * ENTRY);
        return;
    }
    write_row(res, out + (r * w + r) * ENTRY, x, work, p, w - r, s);
}

// Write entry r times the conjugate of entry c of the w numbers from k on of `work`, over 2^e, to entry (r, c) of the block at `out` of `res`, on and above the diagonal; zeros to all of row r, if entry r is zero.
pub fn write_upper(res: &mut [i64], out: usize, work: &[i64], k: usize, w: usize, e: u32)
    requires { Fresh res.old out work.now k w e }
    ensures { res.new ≡ with_numerators res.old out (w * w) (upper_written res.old out work.now k w e) }
{
    let s = raise(work, k, w, e);
    for r in 0..w {
        start_row(res, out, work, k, w, r, s);
    }
}
