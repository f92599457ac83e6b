// Rows of numerators in words: one multiplied, or two multiplied and added, to another place or where they lie; and whether numbers are zero.
// Kept (buffers, together): rows as places in one buffer. The two rows that are read and the row that is written lie in the buffer that a caller lends; as slices they would have to be split out of it and joined again for each row of a product.
// Kept (facts): that the numerators of two factors are narrow, as in exact.
// Kept (switches): the arms hand constants to one function that is written into each of them, so that the products with these are left out; a closure would hide them.
#![tactic(auto)]

ghost use Rattle.std.specs.Prelude.{◌≡◌, ℕ, ◌+◌, ◌*◌, ◌≤◌, ◌<◌, length};
ghost use Rattle.exact.specs.Exact.{numbers, number_of, narrow_numerator};
ghost use Rattle.exact.specs.Inner.Sizes.{Within};
ghost use Rattle.share.specs.Share.{number_in, with_numerators};
ghost use Rattle.rows.specs.Inner.Rows.{Scaling, scaled_row, combined_row, Mixing, mixed, zeros};

use cells::{numerators_at, write_numerators};
use channel::layout::ENTRY;
use exact::NARROW_NUMERATOR;
use exact::numerators::{product, sum4};
use exact::ranges::{all_zero, are_within};

// Whether n numbers from `at` on are zero.
pub fn is_zero(s: &[i64], at: usize, n: usize) -> bool
    requires { at + n * 4 ≤ length s.now }
    ensures { result ≡ zeros s.now at n }
{
    for i in 0..n {
        if !all_zero(numerators_at(s, at + i * ENTRY)) {
            return false;
        }
    }
    true
}

// Kept: inlined, so that each caller's constants spare the products with them.
// Write x times the d numbers from `from` on to `to` on.
#[inline(always)]
pub fn multiply_row(buf: &mut [i64], x: [i64; 4], from: usize, to: usize, d: usize)
    requires { Scaling buf.old (number_of x) from to d }
    ensures { buf.new ≡ with_numerators buf.old to d (scaled_row buf.old (number_of x) from) }
{
    for c in 0..d {
        let v = product(x, numerators_at(buf, from + c * ENTRY));
        write_numerators(buf, to + c * ENTRY, v);
    }
}

// Kept: number by number. Copied as slices of the one buffer, a row asks a C program's library for `memmove`, which nothing else of the archive asks for.
// Write the d numbers from `from` on to `to` on.
pub fn copy_row(buf: &mut [i64], from: usize, to: usize, d: usize)
    requires { Scaling buf.old numbers.𝟙 from to d }
    ensures { buf.new ≡ with_numerators buf.old to d (scaled_row buf.old numbers.𝟙 from) }
{
    multiply_row(buf, [1, 0, 0, 0], from, to, d);
}

// Kept: inlined, as `multiply_row`.
// x times s plus y times t.
#[inline(always)]
fn sum_of_products(x: [i64; 4], s: [i64; 4], y: [i64; 4], t: [i64; 4]) -> [i64; 4]
    requires { (Within narrow_numerator (number_of x) × Within narrow_numerator (number_of s)) × (Within narrow_numerator (number_of y) × Within narrow_numerator (number_of t)) }
    ensures { number_of result ≡ numbers.◌⊕◌ (numbers.◌⊗◌ (number_of x) (number_of s)) (numbers.◌⊗◌ (number_of y) (number_of t)) }
{
    sum4(product(x, s), product(y, t))
}

// Kept: inlined, as `multiply_row`.
// Write x times the d numbers from p on plus y times the d numbers from q on to `to` on.
#[inline(always)]
fn add_rows(buf: &mut [i64], x: [i64; 4], p: usize, y: [i64; 4], q: usize, to: usize, d: usize)
    requires { Scaling buf.old (number_of x) p to d × Scaling buf.old (number_of y) q to d }
    ensures { buf.new ≡ with_numerators buf.old to d (combined_row buf.old (number_of x) p (number_of y) q) }
{
    for c in 0..d {
        let s = numerators_at(buf, p + c * ENTRY);
        let t = numerators_at(buf, q + c * ENTRY);
        write_numerators(buf, to + c * ENTRY, sum_of_products(x, s, y, t));
    }
}

// The same, by sums and differences where x is 1 and y is 1, −1, i or −i, as of projections.
pub fn combine_rows(
    buf: &mut [i64],
    x: &[i64; 4],
    p: usize,
    y: &[i64; 4],
    q: usize,
    to: usize,
    d: usize,
)
    requires { Scaling buf.old (number_of x.now) p to d × Scaling buf.old (number_of y.now) q to d }
    ensures { buf.new ≡ with_numerators buf.old to d (combined_row buf.old (number_of x.now) p (number_of y.now) q) }
{
    match (*x, *y) {
        ([1, 0, 0, 0], [1, 0, 0, 0]) => add_rows(buf, [1, 0, 0, 0], p, [1, 0, 0, 0], q, to, d),
        ([1, 0, 0, 0], [-1, 0, 0, 0]) => add_rows(buf, [1, 0, 0, 0], p, [-1, 0, 0, 0], q, to, d),
        ([1, 0, 0, 0], [0, 0, 1, 0]) => add_rows(buf, [1, 0, 0, 0], p, [0, 0, 1, 0], q, to, d),
        ([1, 0, 0, 0], [0, 0, -1, 0]) => add_rows(buf, [1, 0, 0, 0], p, [0, 0, -1, 0], q, to, d),
        _ => add_rows(buf, *x, p, *y, q, to, d),
    }
}

// Kept: inlined, as `multiply_row`; no frequent factor is looked for.
// Make the row at p x times itself, d numbers.
#[inline(always)]
fn scale_by(buf: &mut [i64], x: [i64; 4], p: usize, d: usize)
    requires { Scaling buf.old (number_of x) p p d }
    ensures { buf.new ≡ with_numerators buf.old p d (scaled_row buf.old (number_of x) p) }
{
    match x {
        [1, 0, 0, 0] => {}
        _ => multiply_row(buf, x, p, p, d),
    }
}

// Kept: inlined, so that each caller's constants spare the products with them.
// Make the row at p x times itself plus y times the row at q, and the row at q v times itself plus u times the row at p, both as they were; d numbers each. Each is made alone where neither has a part of the other.
#[inline(always)]
pub fn mix_constants(
    buf: &mut [i64],
    x: [i64; 4],
    y: [i64; 4],
    p: usize,
    v: [i64; 4],
    u: [i64; 4],
    q: usize,
    d: usize,
)
    requires { Mixing buf.old (number_of x) (number_of y) p (number_of v) (number_of u) q d }
    ensures { buf.new ≡ mixed buf.old (number_of x) (number_of y) p (number_of v) (number_of u) q d }
{
    if all_zero(y) & all_zero(u) {
        scale_by(buf, x, p, d);
        scale_by(buf, v, q, d);
        return;
    }
    for c in 0..d {
        let s = numerators_at(buf, p + c * ENTRY);
        let t = numerators_at(buf, q + c * ENTRY);
        let first = sum_of_products(x, s, y, t);
        let second = sum_of_products(v, t, u, s);
        write_numerators(buf, p + c * ENTRY, first);
        write_numerators(buf, q + c * ENTRY, second);
    }
}

// Make the row at p x times itself plus y times itself; d numbers. Where the sum of the two is narrow, as of unitaries' factors, the row is multiplied by it.
#[inline(always)]
pub fn fold_row(buf: &mut [i64], x: &[i64; 4], y: &[i64; 4], p: usize, d: usize)
    requires { Within narrow_numerator (number_of x.now) × (Within narrow_numerator (number_of y.now) × ((p + d * 4 ≤ length buf.old) × ((c : ℕ) → c < d → Within narrow_numerator (number_in buf.old (p + c * 4))))) }
    ensures { buf.new ≡ with_numerators buf.old p d (combined_row buf.old (number_of x.now) p (number_of y.now) p) }
{
    let z = sum4(*x, *y);
    if are_within(z, NARROW_NUMERATOR) {
        scale_by(buf, z, p, d);
        return;
    }
    combine_rows(buf, x, p, y, p, p, d);
}
