// Measures of an axis: both projectors by their rows, each applied to the matrices of the branches.
// Kept (buffers, together): places in the one lent buffer, as in `branches::bank`.
ghost use Rattle.std.specs.Prelude.{◌≡◌, ◌*◌, ◌/◌, ◌%◌, unwrap_or};
ghost use Rattle.share.specs.Share.{with_numerators};
ghost use Rattle.branches.specs.Inner.Store.{no_bit};
ghost use Rattle.branches.specs.Inner.Step.{Applying, Step, operator_in, row_numerators};
ghost use Rattle.pauli_steps.specs.Inner.Rows.{rows_of};
ghost use Rattle.pauli_turns.specs.Inner.Turns.{form_of};
ghost use Rattle.pauli_run.specs.Inner.Operators.{projector_in, measured};

use branches::bank::{Bank, share_matrix};
use branches::split::{KrausPair, split};
use channel::layout::ENTRY;
use pauli_steps::coefficients::projecting;
use pauli_steps::rows::{Axis, Rows, axis_rows};
use rows::combine_rows;

// Write the numerators of an operator times the matrix at `old` to `new`, row by row. Row r of the operator has entries in columns r and r ^ m alone.
fn apply_rows(work: &mut [i64], m: usize, rows: &Rows, old: usize, new: usize, d: usize)
    requires { Applying work.old m (rows_of rows.now) old new d }
    ensures { work.new ≡ with_numerators work.old new (d * d) (λ i. row_numerators work.old m (rows_of rows.now) old d (i / d) (i % d)) }
{
    for r in 0..d {
        let s = r ^ m;
        let row = rows.row(r);
        let p = old + r * d * ENTRY;
        let q = old + s * d * ENTRY;
        let to = new + r * d * ENTRY;
        combine_rows(work, &row.own, p, &row.other, q, to, d);
    }
}

// Both projectors of an axis by their rows.
#[derive(Clone, Copy)]
struct Projectors {
    // The bits that take a row to its partner.
    flips: usize,
    first: Rows,
    second: Rows,
}

impl KrausPair for Projectors {
    ghost operator = { λ p. operator_in (rows_of p.first) (rows_of p.second) };

    ghost flips = { λ p. p.flips };

    #[inline(always)]
    fn apply(&self, work: &mut [i64], v: usize, old: usize, new: usize, d: usize) {
        let n = d * d;
        let e = work[old + n * ENTRY] as u32;
        let rows = if v == 0 { &self.first } else { &self.second };
        apply_rows(work, self.flips, rows, old, new, d);
        share_matrix(work, new, n, e + rows.exponent);
    }
}

// Kept: not inlined, so that a rotation has no part in the rows of two operators.
// Send the branches of a bank to their products with both projectors of an axis, in a bank at `to`, and write each outcome to the bit, if there is one; answers that bank.
#[inline(never)]
pub fn measure(work: &mut [i64], axis: Axis, from: Bank, to: usize, bit: Option<u32>) -> Bank
    requires { Step work.old axis.flips (projector_in (form_of axis)) from.at to from.d from.count }
    ensures bank { result ≡ record from { at = to; count = from.count * 2 } }
    ensures words { work.new ≡ measured work.old (form_of axis) from.at to from.d from.count (unwrap_or bit no_bit) }
{
    let by = Projectors {
        flips: axis.flips,
        first: axis_rows(axis, projecting(0)),
        second: axis_rows(axis, projecting(1)),
    };
    split(work, &by, from, to, bit);
    Bank {
        at: to,
        d: from.d,
        count: from.count * 2,
    }
}
