// Branches in words: where they lie, the first one, and the shared form of a matrix.
// Kept (buffers, together): a place in the buffer. Both banks lie in one lent buffer, of which a step that splits branches reads one and writes the other, and one that splits none writes over what it reads.
// Kept (facts): d ≤ 32 keeps two products in range. Most functions take a bare d; as a ghost of Bank it would be shown at each place that makes one. e ≤ 63, the bits of a word, is what a shift itself asks, as in share.
ghost use Rattle.std.specs.Prelude.{◌≡◌, ◌+◌, ◌*◌, ◌/◌, ◌%◌, ◌^◌, ◌<◌, ◌≤◌, length};
ghost use Rattle.std.proofs.lemmas.List.Edits.{sets};
ghost use Rattle.algebra.specs.Sum.{δ};
ghost use Rattle.exact.specs.Exact.{exact, lowest};
ghost use Rattle.share.specs.Share.{number_in};
ghost use Rattle.rows.specs.Inner.Rows.{held_words};
ghost use Rattle.store.specs.Inner.Held.{Bits};
ghost use Rattle.branches.specs.Inner.Bank.{matrix_size, branch_size, slot_size, branch_words, identity_branch};

use cells::CELL;
use channel::layout::ENTRY;
use matrix::words::clear;
use share::share_numbers;
use store::pack;

// The words of a matrix.
pub fn matrix_size(d: usize) -> usize
    requires { d ≤ 32 }
    ensures { result ≡ matrix_size d }
{
    d * d * ENTRY + 1
}

// The words of a branch.
pub fn branch_size(d: usize) -> usize
    requires { d ≤ 32 }
    ensures { result ≡ branch_size d }
{
    matrix_size(d) + 2
}

// The words that a circuit asks for a branch.
pub fn slot_size(d: usize) -> usize
    requires { d ≤ 32 }
    ensures { result ≡ slot_size d }
{
    d * d * CELL + 2
}

// Branches one after the other in a buffer of words, `count` of them from `at` on, each with a matrix of d rows and columns.
#[derive(Clone, Copy)]
pub struct Bank {
    pub at: usize,
    pub d: usize,
    pub count: usize,
}

impl Bank {
    // Where branch j lies.
    pub fn branch(self, j: usize) -> usize
        requires { (self.d ≤ 32) × (self.at + j * branch_size self.d < 2 ^ 64) }
        ensures { result ≡ self.at + j * branch_size self.d }
    {
        self.at + j * branch_size(self.d)
    }

    // Where the store of branch j lies.
    pub fn store(self, j: usize) -> usize
        requires { (self.d ≤ 32) × (self.at + j * branch_size self.d + branch_size self.d < 2 ^ 64) }
        ensures { result ≡ self.at + j * branch_size self.d + matrix_size self.d }
    {
        self.branch(j) + matrix_size(self.d)
    }
}

// Write the identity to `at` on.
fn identity_into(work: &mut [i64], at: usize, d: usize)
    requires { (d ≤ 32) × (at + matrix_size d ≤ length work.old) }
    ensures { work.new ≡ sets work.old at (held_words (d * d) (λ i. δ exact (i / d) (i % d))) }
{
    clear(work, at, matrix_size(d));
    for r in 0..d {
        work[at + (r * d + r) * ENTRY] = 1;
    }
}

// Write the identity with a store of bytes.
pub fn start_branch(work: &mut [i64], at: usize, d: usize, store: &[u8])
    requires { (d ≤ 32) × ((at + branch_size d ≤ length work.old) × ((length store.now ≤ 64) × Bits store.now)) }
    ensures { work.new ≡ sets work.old at (branch_words d (identity_branch d store.now)) }
{
    identity_into(work, at, d);
    let (low, high) = store.split_at(store.len().min(32));
    let s = at + matrix_size(d);
    work[s] = pack(low) as i64;
    work[s + 1] = pack(high) as i64;
}

// Bring n numbers from `at` on, over 2^e, to their shared form, and write its exponent behind them.
pub fn share_matrix(work: &mut [i64], at: usize, n: usize, e: u32)
    requires { (at + n * 4 < length work.old) × (e ≤ 63) }
    ensures { work.new ≡ sets work.old at (held_words n (λ k. lowest (number_in work.old (at + k * 4)) e)) }
{
    let e = share_numbers(work, at, n, e);
    work[at + n * ENTRY] = i64::from(e);
}
