// Measures and resets: each of their two operators leaves one half of the rows of a matrix, in its place or in that of the other half, and zeros.
// Kept (buffers, together): places in the one lent buffer, as in `bank`.
// Kept (flags): which half and whether it moves are two of a projection's three parts; its mask is the third.
ghost use Rattle.std.specs.Prelude.{◌≡◌, Bool, cond, ◌*◌, ◌/◌, ◌%◌};
ghost use Rattle.share.specs.Share.{with_numerators};
ghost use Rattle.branches.specs.Inner.Step.{Applying, row_numerators};
ghost use Rattle.branches.specs.Inner.Project.{projection, split_in};

use super::bank::share_matrix;
use super::split::KrausPair;
use channel::layout::ENTRY;
use rows::{copy_row, multiply_row};

// The bits m, or none.
fn masked(b: bool, m: usize) -> usize
    ensures { result ≡ cond b m 0 }
{
    if b {
        return m;
    }
    0
}

// Write the numerators of a projection of the matrix at `old` to `new`, row by row.
fn project_rows(
    work: &mut [i64],
    m: usize,
    high: bool,
    moved: bool,
    old: usize,
    new: usize,
    d: usize,
)
    requires { Applying work.old m (projection m high moved) old new d }
    ensures { work.new ≡ with_numerators work.old new (d * d) (λ i. row_numerators work.old m (projection m high moved) old d (i / d) (i % d)) }
{
    let keep = masked(high, m);
    let flip = masked(moved, m);
    for r in 0..d {
        let s = r ^ flip;
        let to = new + r * d * ENTRY;
        if r & m == keep {
            copy_row(work, old + s * d * ENTRY, to, d);
        } else {
            multiply_row(work, [0, 0, 0, 0], old + r * d * ENTRY, to, d);
        }
    }
}

// A measure or a reset of the qubit whose bit in a row's number is `mask`.
#[derive(Clone, Copy)]
pub struct Projections {
    pub mask: usize,
    pub resets: bool,
}

impl KrausPair for Projections {
    ghost operator = { λ p. split_in p.mask p.resets };

    ghost flips = { λ p. p.mask };

    // Numerators over 1 are in their shared form.
    #[inline(always)]
    fn apply(&self, work: &mut [i64], v: usize, old: usize, new: usize, d: usize) {
        let n = d * d;
        let e = work[old + n * ENTRY] as u32;
        let high = (v != 0) & !self.resets;
        let moved = (v != 0) & self.resets;
        project_rows(work, self.mask, high, moved, old, new, d);
        if e == 0 {
            work[new + n * ENTRY] = 0;
            return;
        }
        share_matrix(work, new, n, e);
    }
}
