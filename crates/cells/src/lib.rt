// A scalar as five words of a lent slice, n0 to n3 and e: read, written, and tested.
// Kept (buffers): words and a place in them. Numerators are read at two places of one lent buffer and written at a third, row by row: cut into a slice a number, the buffer would have to be split there and joined again for every row.
// Kept (facts): that five words are there, of the readers: a type that says so is the cut slice of which the line above speaks.
#![tactic(auto)]

ghost use Rattle.std.specs.Prelude.{◌≡◌, true, ◌+◌, ◌≤◌, length};
ghost use Rattle.std.proofs.lemmas.List.Edits.{sets};
ghost use Rattle.exact.specs.Exact.{list_of, number_of};
ghost use Rattle.scalar.specs.Calls.{value, scalar_of};
ghost use Rattle.cells.specs.Cells.{cell_size, cell_at, cell_words, exponent_at, well_formed_at};
ghost use Rattle.cells.specs.Inner.Zero.{zero_at};

use exact::MAX_EXPONENT;
use exact::ranges::all_zero;
use scalar::Scalar;

// The words of a cell.
pub const CELL: usize = 5;

// The numerators in the first four words from `at` on.
pub fn numerators_at(s: &[i64], at: usize) -> [i64; 4]
    requires { at + 4 ≤ length s.now }
    ensures { result ≡ list_of (cell_at s.now at).num }
{
    [s[at], s[at + 1], s[at + 2], s[at + 3]]
}

// The scalar in the five words from `at` on.
pub fn read_cell(s: &[i64], at: usize) -> Scalar
    requires { (at + cell_size ≤ length s.now) × (exponent_at s.now at ≡ true) }
    ensures { result ≡ scalar_of (cell_at s.now at) }
{
    Scalar {
        n: numerators_at(s, at),
        e: s[at + 4] as u32,
    }
}

// Kept: word by word, of which the check finds the proof alone; with `copy_from_slice` it asks for one on the middle of a list.
// Write four numerators into the words from `at` on.
pub fn write_numerators(s: &mut [i64], at: usize, x: [i64; 4])
    requires { at + 4 ≤ length s.old }
    ensures { s.new ≡ sets s.old at (list_of (number_of x)) }
{
    s[at] = x[0];
    s[at + 1] = x[1];
    s[at + 2] = x[2];
    s[at + 3] = x[3];
}

// Write a scalar into the five words from `at` on.
pub fn write_cell(s: &mut [i64], at: usize, v: Scalar)
    requires { at + cell_size ≤ length s.old }
    ensures { s.new ≡ sets s.old at (cell_words (value v)) }
{
    write_numerators(s, at, v.n);
    s[at + 4] = i64::from(v.e);
}

// Whether the scalar at `at` is zero.
pub fn zero_at(s: &[i64], at: usize) -> bool
    requires { at + cell_size ≤ length s.now }
    ensures { result ≡ zero_at s.now at }
{
    all_zero(numerators_at(s, at))
}

// Whether the five words from `at` on are a scalar in range and in lowest form.
pub fn well_formed_at(s: &[i64], at: usize) -> bool
    requires { at + cell_size ≤ length s.now }
    ensures { result ≡ well_formed_at s.now at }
{
    (0..=i64::from(MAX_EXPONENT)).contains(&s[at + 4]) && read_cell(s, at).is_well_formed()
}
