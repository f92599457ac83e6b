// Two rows that are mixed by numbers 2 + w and 2 − w, where w is √2 times whole numbers, by sums and differences: those of an odd number of eighths.
// Kept (buffers, together): places in the one lent buffer, as in `rows`.
// Kept (kinds): t and u count quarter turns, as in the words of a program.
// Kept (facts): t, u < 4 and t + u, 0 or 4, are known of an axis that is its own adjoint.
ghost use Rattle.std.specs.Prelude.{◌≡◌, ◌+◌, ◌*◌, ◌%◌, ◌<◌};
ghost use Rattle.exact.specs.Exact.{numbers, number_of, list_of, narrow_numerator};
ghost use Rattle.exact.specs.Inner.Sizes.{Within, room_numerator};
ghost use Rattle.rows.specs.Inner.Rows.{Mixing, mixed};
ghost use Rattle.pauli_nodes.specs.Nodes.{turned};
ghost use Rattle.pauli_turns.specs.Inner.Turns.{root_part, more, less, are_apart};

use super::Number;
use cells::{numerators_at, write_numerators};
use channel::layout::ENTRY;
use exact::numerators::{neg4, sum4};
use exact::ranges::all_zero;
use pauli_steps::rows::turned4;

// Whether x is 2 + w and y is 2 − w, where w is √2 times whole numbers.
#[inline(always)]
pub fn are_apart(x: Number, y: Number) -> bool
    requires { Within narrow_numerator (number_of x) × Within room_numerator (number_of y) }
    ensures { result ≡ are_apart (number_of x) (number_of y) }
{
    all_zero([x[0] - 2, x[2], y[0] - 2, y[2]]) & all_zero([x[1] + y[1], x[3] + y[3], 0, 0])
}

// The part of x that is √2 times whole numbers, times v.
#[inline(always)]
fn times_root(x: Number, v: Number) -> Number
    requires { Within (2 * narrow_numerator) (number_of x) × Within (2 * narrow_numerator) (number_of v) }
    ensures { result ≡ list_of (numbers.◌⊗◌ (root_part (number_of x)) (number_of v)) }
{
    let x1 = x[1];
    let x3 = x[3];
    let v0 = v[0];
    let v1 = v[1];
    let v2 = v[2];
    let v3 = v[3];
    let c0 = x1 * v0 - x3 * v2;
    let c1 = x1 * v1 - x3 * v3;
    let c2 = x1 * v2 + x3 * v0;
    let c3 = x1 * v3 + x3 * v1;
    [2 * c1, c0, 2 * c3, c2]
}

// The two numbers that are made of s, in the first row, and v, in the second: b is i^t·v, and they are (s + b)·2 + (s − b)·w and i^u·((s + b)·2 − (s − b)·w).
#[inline(always)]
fn mix_numbers(x: Number, t: u32, u: u32, s: Number, v: Number) -> (Number, Number)
    requires turns { (t < 4) × ((u < 4) × ((t + u) % 4 ≡ 0)) }
    requires sizes { Within narrow_numerator (number_of x) × (Within narrow_numerator (number_of s) × Within narrow_numerator (number_of v)) }
    ensures first { number_of result.0 ≡ numbers.◌⊕◌ (numbers.◌⊗◌ (more (number_of x)) (number_of s)) (numbers.◌⊗◌ (numbers.◌⊗◌ (less (number_of x)) (turned t).num) (number_of v)) }
    ensures second { number_of result.1 ≡ numbers.◌⊕◌ (numbers.◌⊗◌ (more (number_of x)) (number_of v)) (numbers.◌⊗◌ (numbers.◌⊗◌ (less (number_of x)) (turned u).num) (number_of s)) }
{
    let b = turned4(v, t);
    let sum = sum4(s, b);
    let w = times_root(x, sum4(s, neg4(b)));
    let twice = sum4(sum, sum);
    let second = sum4(neg4(w), twice);
    (sum4(w, twice), turned4(second, u))
}

// Kept: inlined, so that each caller's constants spare the products with them.
// Make the row at p 2 + w times itself plus i^t·(2 − w) times the row at q, and the row at q 2 + w times itself plus i^u·(2 − w) times the row at p, both as they were; d numbers each, and w is the part of x that is √2 times whole numbers.
#[inline(always)]
pub fn mix_by_sums(work: &mut [i64], x: Number, t: u32, u: u32, p: usize, q: usize, d: usize)
    requires turns { (t < 4) × ((u < 4) × ((t + u) % 4 ≡ 0)) }
    requires size { Within narrow_numerator (number_of x) }
    requires mixing { Mixing work.old (more (number_of x)) (numbers.◌⊗◌ (less (number_of x)) (turned t).num) p (more (number_of x)) (numbers.◌⊗◌ (less (number_of x)) (turned u).num) q d }
    ensures { work.new ≡ mixed work.old (more (number_of x)) (numbers.◌⊗◌ (less (number_of x)) (turned t).num) p (more (number_of x)) (numbers.◌⊗◌ (less (number_of x)) (turned u).num) q d }
{
    for c in 0..d {
        let s = numerators_at(work, p + c * ENTRY);
        let v = numerators_at(work, q + c * ENTRY);
        let (first, second) = mix_numbers(x, t, u, s, v);
        write_numerators(work, p + c * ENTRY, first);
        write_numerators(work, q + c * ENTRY, second);
    }
}
