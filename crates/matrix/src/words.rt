// Words cleared, and searched for what is not zero.
// Kept (buffers, together): a place and a length. The contract of a writer says of the whole buffer what it becomes; of a cut slice it would speak of that part alone, and each caller would have to show again that the rest stayed as it was.
// The readers take what the writers take.
ghost use Rattle.std.specs.Prelude.{◌≡◌, ℕ, ◌+◌, ◌*◌, ◌-◌, ◌≤◌, length, pos};
ghost use Rattle.algebra.specs.Words.{fill_words};
ghost use Rattle.cells.specs.Cells.{cell_size};
ghost use Rattle.cells.specs.Inner.Zero.{zero_at};
ghost use Rattle.matrix.specs.Phase.{first_not};
ghost use Rattle.matrix.specs.Inner.Written.{one_of, zeros};

use cells::{CELL, zero_at};

// Set n words from `at` on to zero.
pub fn clear(s: &mut [i64], at: usize, n: usize)
    requires { at + n ≤ length s.old }
    ensures { s.new ≡ fill_words s.old at n (λ (i : ℕ). pos 0) }
{
    s[at..at + n].fill(0);
}

// Of n entries from `at` on, the first from entry r on that is not zero.
pub fn first_nonzero(s: &[i64], at: usize, n: usize, r: usize) -> Option<usize>
    requires { (r ≤ n) × (at + n * cell_size ≤ length s.now) }
    ensures { result ≡ one_of n (first_not (n - r) r (λ (k : ℕ). zero_at s.now (at + k * cell_size))) }
{
    for i in r..n {
        if !zero_at(s, at + i * CELL) {
            return Some(i);
        }
    }
    None
}

// Whether n entries from `at` on are zero.
pub fn is_zero(s: &[i64], at: usize, n: usize) -> bool
    requires { at + n * cell_size ≤ length s.now }
    ensures { result ≡ zeros s.now at n }
{
    first_nonzero(s, at, n, 0).is_none()
}
