// Branches split by the two operators of a measure or a reset.
// Kept (buffers, together): places in the one lent buffer, as in `bank`.
ghost use Rattle.std.specs.Prelude.{◌≡◌, ℕ, ◌*◌, ◌/◌, ◌%◌, unwrap_or};
ghost use Rattle.std.proofs.lemmas.List.Edits.{sets};
ghost use Rattle.algebra.specs.Words.{blocks};
ghost use Rattle.gate.specs.Inner.Rows.{Form, entry_in};
ghost use Rattle.rows.specs.Inner.Rows.{held_words};
ghost use Rattle.branches.specs.Inner.Store.{no_bit};
ghost use Rattle.branches.specs.Inner.Bank.{branch_size};
ghost use Rattle.branches.specs.Inner.Step.{Applying, Step, row_sum, step_words};

use super::bank::{Bank, matrix_size};
use super::outcome::write_store;

// Two Kraus operators, 0 and 1, which share a mask.
pub trait KrausPair {
    // Operator v, by its rows.
    ghost operator: { Self → ℕ → Form };

    // The bits that take a row to its partner.
    ghost flips: { Self → ℕ };

    // Write operator v times the matrix at `old` to `new`.
    fn apply(&self, work: &mut [i64], v: usize, old: usize, new: usize, d: usize)
        requires { Applying work.old (flips self.now) (operator self.now v) old new d }
        ensures { work.new ≡ sets work.old new (held_words (d * d) (λ i. row_sum work.old (flips self.now) (entry_in (operator self.now v)) old d (i / d) (i % d))) };
}

// Send each branch of a bank to its products with both operators of a pair, a bank at `to`, and write the operator's number to the store's bit `bit`, if there is one.
#[inline(always)]
pub fn split<T: KrausPair>(work: &mut [i64], by: &T, from: Bank, to: usize, bit: Option<u32>)
    requires { Step work.old (T.flips by.now) (T.operator by.now) from.at to from.d from.count }
    ensures { work.new ≡ blocks (branch_size from.d) work.old to (from.count * 2) (step_words work.old (T.flips by.now) (λ v. entry_in (T.operator by.now v)) (λ j. j % 2) 2 from.at from.d (unwrap_or bit no_bit)) }
{
    let d = from.d;
    let matrix = matrix_size(d);
    let size = matrix + 2;
    for j in 0..from.count * 2 {
        let v = j % 2;
        let old = from.at + j / 2 * size;
        let new = to + j * size;
        by.apply(work, v, old, new, d);
        write_store(work, old + matrix, new + matrix, bit, v as u64);
    }
}
