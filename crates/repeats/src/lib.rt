// The block of overlaps of numbers of which many are equal, in its shared form: a row is worked out for each different number, and the rows of equal numbers are copies of it.
// Kept (buffers, together): a place in the result, as in overlaps, beside the exponent of what is written there. The contracts say what all of it becomes; a row is copied from one place of it to another.
// Kept (facts): t ≤ 63, the bits of a word, is what a shift itself asks; that numerators are narrow, as in exact.
#![tactic(auto)]

ghost use Rattle.std.specs.Prelude.{◌≡◌, ◌&&◌, true, ℕ, ◌+◌, ◌*◌, ◌/◌, ◌%◌, ◌^◌, ◌<◌, ◌≤◌, length, get_or, pos, eqb};
ghost use Rattle.std.specs.Option.{ForSome};
ghost use Rattle.std.specs.Int.{w64};
ghost use Rattle.std.proofs.Common.{of_z};
ghost use Rattle.algebra.specs.Lists.{all_below};
ghost use Rattle.exact.specs.Exact.{number_of, list_of};
ghost use Rattle.share.specs.Share.{number_in, with_numerators};
ghost use Rattle.repeats.specs.Inner.Repeats.{same, times, worked, row_clear, rows_cleared, row_written, rows_written, row_finished, rows_finished, products_shared, Places, Firsts, Narrow, Found, Row, Block};

use cells::{numerators_at, write_numerators};
use channel::layout::ENTRY;
use exact::numerators::common_zeros;
use exact::ranges::all_zero;
use matrix::words::clear;
use overlaps::product_with;
use share::{or_more, shift_words};

// The most numbers.
pub const MOST: usize = 256;

// The most different ones.
const DIFFERENT: usize = 8;

// Whether the numbers at p and q are the same.
fn are_same(s: &[i64], p: usize, q: usize) -> bool
    requires { (p + 4 ≤ length s.now) × (q + 4 ≤ length s.now) }
    ensures { result ≡ same (number_in s.now p) (number_in s.now q) }
{
    let re = (s[p] == s[q]) & (s[p + 1] == s[q + 1]);
    let im = (s[p + 2] == s[q + 2]) & (s[p + 3] == s[q + 3]);
    re & im
}

// Which of n places has the same number as place r of those from k on.
fn find_same(work: &[i64], k: usize, places: &[u8; DIFFERENT], n: usize, r: usize) -> Option<usize>
    requires { Places places.now n work.now k r }
    ensures { ForSome result (λ i. (i < n) × (number_in work.now (k + get_or places.now i 0 * 4) ≡ number_in work.now (k + r * 4))) }
{
    for i in 0..n {
        if are_same(work, k + places[i] as usize * ENTRY, k + r * ENTRY) {
            return Some(i);
        }
    }
    None
}

// Kept: the places go to a lent array; one in the result would be copied, which takes as long as to find the places of a few numbers.
// Not inlined, so that the caller's other way to write a block, which stands beside it, keeps its registers.
// Write for each of w numbers from k on the first place of the same number, if there are few different ones; whether there are.
#[inline(never)]
pub fn find_firsts(firsts: &mut [u8; MOST], work: &[i64], k: usize, w: usize) -> bool
    requires { (w ≤ 256) × (k + w * 4 ≤ length work.now) }
    ensures { result ≡ true → Firsts firsts.new work.now k w }
{
    let mut places = [0u8; DIFFERENT];
    let mut n = 0;
    for r in 0..w {
        if let Some(i) = find_same(work, k, &places, n, r) {
            firsts[r] = places[i];
        } else {
            if n == DIFFERENT {
                return false;
            }
            firsts[r] = r as u8;
            places[n] = r as u8;
            n += 1;
        }
    }
    true
}

// Numbers of which many are equal: w of them from k on, and for each the first place of the same number.
#[derive(Clone, Copy)]
pub struct Repeats<'a> {
    pub work: &'a [i64],
    pub k: usize,
    pub w: usize,
    pub firsts: &'a [u8; MOST],
    pub ghost narrow: { Narrow work.now k w },
    pub ghost repeat: { Firsts firsts.now work.now k w },
}

impl<'a> Repeats<'a> {
    // Number r.
    fn number(self, r: usize) -> [i64; 4]
        requires { r < self.w }
        ensures { let s = self.entry in result ≡ list_of (number_in s.work.now (s.k + r * 4)) }
    {
        numerators_at(self.work, self.k + r * ENTRY)
    }

    // The first place of number r.
    fn first(self, r: usize) -> usize
        requires { r < self.w }
        ensures { let s = self.entry in result ≡ get_or s.firsts.now r 0 }
    {
        self.firsts[r] as usize
    }

    // Whether row r is worked out: number r is the first of the same, and not zero.
    fn is_worked(self, r: usize) -> bool
        requires { r < self.w }
        ensures { let s = self.entry in result ≡ worked s.work.now s.k s.firsts.now r }
    {
        self.first(r) == r && !all_zero(self.number(r))
    }

    // x times the conjugate of number c, which stands in the row at `to` already if that number has an earlier place.
    fn product_at(self, res: &[i64], to: usize, x: [i64; 4], c: usize) -> [i64; 4]
        requires { Found res.now to (number_of x) self.work.now self.k self.firsts.now self.w c }
        ensures { let s = self.entry in result ≡ list_of (times (number_of x) s.work.now s.k c) }
    {
        let f = self.first(c);
        if f != c {
            return numerators_at(res, to + f * ENTRY);
        }
        product_with(x, self.number(c))
    }

    // Write x times the conjugates of the numbers to `to` on.
    fn write_row(self, res: &mut [i64], to: usize, x: [i64; 4])
        requires { Row res.old to (number_of x) self.w }
        ensures { let s = self.entry in res.new ≡ with_numerators res.old to s.w (times (number_of x) s.work.now s.k) }
    {
        for c in 0..self.w {
            let p = self.product_at(res, to, x, c);
            write_numerators(res, to + c * ENTRY, p);
        }
    }

    // Kept: numbers over 1 are not asked for their bits. The words that were just written would be waited for.
    // Write row r of the block at `out` if it is worked out; the bits that g has or some word of it, if the numbers are over 2^e for an e above 0.
    fn write_first(self, res: &mut [i64], out: usize, r: usize, g: i64, e: u32) -> i64
        requires { Block res.old out self.w r }
        ensures words { let s = self.entry in res.new ≡ with_numerators res.old (out + r * s.w * 4) s.w (row_written res.old out s.work.now s.k s.firsts.now s.w r) }
        ensures bits { let s = self.entry in 0 < e → (j : ℕ) → j < 63 → eqb (of_z w64 result / 2 ^ j % 2) 0 ≡ (eqb (of_z w64 g / 2 ^ j % 2) 0 && row_clear s.work.now s.k s.firsts.now s.w j r) }
    {
        if !self.is_worked(r) {
            return g;
        }
        let to = out + r * self.w * ENTRY;
        self.write_row(res, to, self.number(r));
        if e == 0 {
            return g;
        }
        or_more(res, to, self.w * ENTRY, g)
    }

    // Write the rows of the block at `out` that are worked out; the bits that some word of them has, if the numbers are over 2^e for an e above 0.
    fn write_firsts(self, res: &mut [i64], out: usize, e: u32) -> i64
        requires { out + self.w * self.w * 4 ≤ length res.old }
        ensures words { let s = self.entry in res.new ≡ with_numerators res.old out (s.w * s.w) (rows_written res.old out s.work.now s.k s.firsts.now s.w) }
        ensures bits { let s = self.entry in 0 < e → (j : ℕ) → j < 63 → eqb (of_z w64 result / 2 ^ j % 2) 0 ≡ all_below s.w (row_clear s.work.now s.k s.firsts.now s.w j) }
    {
        let mut g = 0i64;
        for r in 0..self.w {
            g = self.write_first(res, out, r, g, e);
        }
        g
    }

    // Row r of the block at `out`: if number r is not zero, it is shifted by t if it is worked out; else it is a copy of the first row of the same number.
    fn finish_row(self, res: &mut [i64], out: usize, r: usize, t: u32)
        requires { Block res.old out self.w r × (t ≤ 63) }
        ensures { let s = self.entry in res.new ≡ with_numerators res.old (out + r * s.w * 4) s.w (row_finished res.old out s.work.now s.k s.firsts.now s.w t r) }
    {
        if all_zero(self.number(r)) {
            return;
        }
        let w = self.w;
        let to = out + r * w * ENTRY;
        let f = self.first(r);
        if f == r {
            shift_words(res, to, w * ENTRY, t);
            return;
        }
        copy_numbers(res, out + f * w * ENTRY, to, w);
    }

    // Finish all rows of the block at `out` but those of zeros; those that are worked out are written.
    fn finish_rows(self, res: &mut [i64], out: usize, t: u32)
        requires { (out + self.w * self.w * 4 ≤ length res.old) × (t ≤ 63) }
        ensures { let s = self.entry in res.new ≡ with_numerators res.old out (s.w * s.w) (rows_finished res.old out s.work.now s.k s.firsts.now s.w t) }
    {
        for r in 0..self.w {
            self.finish_row(res, out, r, t);
        }
    }

    // Kept: a loop of its own, behind the copies. To clear rows between them takes longer: the row that is copied is then read from farther away. A call for each row takes an eighth of the time more on four qubits.
    // Clear the rows of zeros of the block at `out`, those that stand together at once.
    fn clear_zeros(self, res: &mut [i64], out: usize)
        requires { out + self.w * self.w * 4 ≤ length res.old }
        ensures { let s = self.entry in res.new ≡ with_numerators res.old out (s.w * s.w) (rows_cleared res.old out s.work.now s.k s.w) }
    {
        let size = self.w * ENTRY;
        let mut from = 0;
        for r in 0..self.w {
            if !all_zero(self.number(r)) {
                clear(res, out + from * size, (r - from) * size);
                from = r + 1;
            }
        }
        clear(res, out + from * size, (self.w - from) * size);
    }

    // Kept: not inlined, as `find_firsts`.
    // Write the block of the products of the numbers with each other's conjugates, over 2^e, to `out` on in its shared form; its exponent.
    #[inline(never)]
    pub fn write(self, res: &mut [i64], out: usize, e: u32) -> u32
        requires { (out + self.w * self.w * 4 ≤ length res.old) × (e ≤ 63) }
        ensures exponent { let s = self.entry in result ≡ (products_shared s.work.now s.k s.w e).exp }
        ensures numerators { let s = self.entry in res.new ≡ with_numerators res.old out (s.w * s.w) (products_shared s.work.now s.k s.w e).num }
    {
        let g = self.write_firsts(res, out, e);
        let t = common_zeros(g, 0, 0, 0).min(e);
        self.finish_rows(res, out, t);
        self.clear_zeros(res, out);
        e - t
    }
}

// Kept: number by number, as `rows::copy_row`; the numbers of a block are too large to be multiplied, and so for that function.
// Write the n numbers from `from` on to `to` on.
fn copy_numbers(s: &mut [i64], from: usize, to: usize, n: usize)
    requires { (from + n * 4 ≤ to) × (to + n * 4 ≤ length s.old) }
    ensures { s.new ≡ with_numerators s.old to n (λ (c : ℕ). number_in s.old (from + c * 4)) }
{
    for c in 0..n {
        let x = numerators_at(s, from + c * ENTRY);
        write_numerators(s, to + c * ENTRY, x);
    }
}
