// Hermitian blocks of numerators over one power of two, given on and above the diagonal: brought to their shared form in place, the lower half from the upper.
// A row whose number on the diagonal is zero is zero, and is passed over.
// Kept (facts): t ≤ 63, the bits of a word, is what a shift itself asks; that a row may be passed over is known of each write of it, and a struct with the words would be made anew behind each.
// Kept (buffers, together): a block by its place and its w rows. It is read and written across its diagonal, at two places of one buffer, and stands in a result that is longer; a struct that holds the `&mut` would be lent anew for each row.
#![tactic(auto)]

ghost use Rattle.std.specs.Prelude.{◌≡◌, ℕ, ◌+◌, ◌*◌, ◌-◌, ◌<◌, ◌≤◌, length, get_or, pos};
ghost use Rattle.std.proofs.lemmas.List.Edits.{sets};
ghost use Rattle.std.specs.Int.{w64};
ghost use Rattle.std.proofs.Common.{SFits, of_z};
ghost use Rattle.algebra.specs.Quadratic.{conjugate};
ghost use Rattle.exact.specs.Exact.{root2, list_of, is_zero};
ghost use Rattle.exact.specs.Inner.Sizes.{Within, room_numerator};
ghost use Rattle.share.specs.Share.{number_in, or_words, with_numerators};
ghost use Rattle.hermitian.specs.Inner.Upper.{diagonal, or_upper, row_shared, upper_shared, mirrored_from, Row, Column, Shifting, Half};

use cells::{numerators_at, write_numerators};
use channel::layout::ENTRY;
use exact::numerators::{common_zeros, conj4};
use exact::ranges::all_zero;
use share::{or_more, shift_words};

// Whether the number on the diagonal of row r of the block at `at`, of w rows, is zero.
fn is_zero_row(s: &[i64], at: usize, w: usize, r: usize) -> bool
    requires { (r < w) × (at + w * w * 4 ≤ length s.now) }
    ensures { result ≡ is_zero (diagonal s.now at w r) }
{
    let x = numerators_at(s, at + (r * w + r) * ENTRY);
    all_zero(x)
}

// The bits that g has or some word of row r of the block at `at`, from its diagonal on.
fn or_row(s: &[i64], at: usize, w: usize, r: usize, g: i64) -> i64
    requires { Row s.now at w r }
    ensures bits { of_z w64 result ≡ or_words (of_z w64 g) s.now (at + (r * w + r) * 4) ((w - r) * 4) }
    ensures fit { (i : ℕ) → i < (w - r) * 4 → SFits w64 (get_or s.now (at + (r * w + r) * 4 + i) (pos 0)) }
{
    if is_zero_row(s, at, w, r) {
        return g;
    }
    or_more(s, at + (r * w + r) * ENTRY, (w - r) * ENTRY, g)
}

// The bits that some number on or above the diagonal of the block has.
fn or_rows(s: &[i64], at: usize, w: usize) -> i64
    requires { Half s.now at w }
    ensures bits { of_z w64 result ≡ or_upper s.now at w w }
    ensures fit { (r i : ℕ) → r < w → i < (w - r) * 4 → SFits w64 (get_or s.now (at + (r * w + r) * 4 + i) (pos 0)) }
{
    let mut g = 0i64;
    for r in 0..w {
        g = or_row(s, at, w, r, g);
    }
    g
}

// Write the conjugate of the number at `from` to `at`.
fn write_conj(s: &mut [i64], from: usize, at: usize)
    requires { (from + 4 ≤ length s.old) × ((at + 4 ≤ length s.old) × Within room_numerator (number_in s.old from)) }
    ensures { s.new ≡ sets s.old at (list_of (conjugate root2 (number_in s.old from))) }
{
    let x = numerators_at(s, from);
    write_numerators(s, at, conj4(x));
}

// Write the conjugates of the first r numbers of column r of the block at `out`, of w columns, to row r.
fn mirror_column(s: &mut [i64], out: usize, w: usize, r: usize)
    requires { Column s.old out w r }
    ensures { s.new ≡ with_numerators s.old (out + r * w * 4) r (λ (c : ℕ). conjugate root2 (number_in s.old (out + (c * w + r) * 4))) }
{
    for c in 0..r {
        write_conj(
            s,
            out + (c * w + r) * ENTRY,
            out + r * w * ENTRY + c * ENTRY,
        );
    }
}

// Shift the numbers of row r by t, from its diagonal on, and write to those before it the conjugates of column r, whose numbers are shifted.
fn share_row(s: &mut [i64], out: usize, w: usize, r: usize, t: u32)
    requires { Shifting s.old out w r × (t ≤ 63) }
    ensures { s.new ≡ with_numerators s.old (out + r * w * 4) w (row_shared s.old out w t r) }
{
    if is_zero_row(s, out, w, r) {
        return;
    }
    mirror_column(s, out, w, r);
    shift_words(s, out + (r * w + r) * ENTRY, (w - r) * ENTRY, t);
}

// Shift each number on or above the diagonal by t, and write its conjugate across the diagonal.
fn share_rows(s: &mut [i64], out: usize, w: usize, t: u32)
    requires { Half s.old out w × (t ≤ 63) }
    ensures { s.new ≡ with_numerators s.old out (w * w) (upper_shared s.old out w t) }
{
    for r in 0..w {
        share_row(s, out, w, r, t);
    }
}

// Bring the Hermitian block at `at`, of w rows, over 2^e, given on and above its diagonal, to its shared form; its exponent.
pub fn share_block(s: &mut [i64], at: usize, w: usize, e: u32) -> u32
    requires { Half s.old at w × (e ≤ 63) }
    ensures exponent { result ≡ (mirrored_from s.old at w e).exp }
    ensures numerators { s.new ≡ with_numerators s.old at (w * w) (mirrored_from s.old at w e).num }
{
    let g = or_rows(s, at, w);
    // Kept: `common_zeros` with zeros for the other three words: for one word its body would stand here again, with a proof of its own, and be no plainer.
    let t = common_zeros(g, 0, 0, 0).min(e);
    share_rows(s, at, w, t);
    e - t
}
