// The words of a channel: sizes, entries, stores, and the chain.
// Kept (buffers): a record is named by its index in the whole words, which is what the chain's words hold: callers that walk the chain have the whole and an index. The blocks that are compared are cut, and read at 0.
// Kept (facts): w ≤ 256 of a bare number: these two serve callers that hold the rows of a block and no form, and are where the form is made.
ghost use Rattle.std.specs.Prelude.{◌≡◌, true, ◌+◌, ◌<◌, ◌≤◌, length, pos, nat_abs};
ghost use Rattle.algebra.specs.Words.{up_to};
ghost use Rattle.scalar.specs.Calls.{scalar_of};
ghost use Rattle.store.specs.Store.{max_word};
ghost use Rattle.channel.specs.Layout.{record_head, full, channels, block_size, record_size, entry_at, store_at, word, dim_at};
ghost use Rattle.channel.specs.Inner.Shapes.{Entries};

use super::forms::{ALL, Form};
use super::records::read_kept;
use scalar::Scalar;
use scalar::numerators::reduce;
use store::store_from;

pub const HEADER: usize = 4;

// Next, the store's two words, and the exponent of the block.
pub const RECORD_HEAD: usize = 4;

// The place of the exponent in a record.
pub const EXPONENT: usize = 3;

// The numerators of an entry.
pub const ENTRY: usize = 4;

// The words of the numerators of a block of w rows and columns.
pub fn block_size(w: usize) -> usize
    requires { w ≤ 256 }
    ensures { result ≡ block_size (full w) }
{
    Form::new(w, ALL).block_size()
}

// The words of the record of a block of w rows and columns.
pub fn record_size(w: usize) -> usize
    requires { w ≤ 256 }
    ensures { result ≡ record_size (full w) }
{
    Form::new(w, ALL).record_size()
}

// Entry k, row · w + column, of the record at `at` of a channel, in lowest form.
pub fn read_entry(s: &[i64], at: usize, k: usize) -> Scalar
    requires { Entries s.now at (k + 1) }
    ensures { result ≡ scalar_of (entry_at (channels (dim_at s.now)) s.now at k) }
{
    let numerators = read_kept(s, at + RECORD_HEAD + k * ENTRY, false);
    let e = s[at + EXPONENT];
    reduce(numerators, e as u32)
}

// Whether a word is a number from 0 to n.
pub fn up_to(n: u64, x: i64) -> bool
    ensures { result ≡ up_to n x }
{
    u64::try_from(x).is_ok_and(|x| x <= n)
}

// The store of the record at `at`.
pub fn read_store(s: &[i64], at: usize) -> u64
    requires { (at + record_head ≤ length s.now) × ((up_to max_word (word s.now (at + 1)) ≡ true) × (up_to max_word (word s.now (at + 2)) ≡ true)) }
    ensures { result ≡ store_at s.now at }
{
    store_from(s, at + 1)
}

// The index in a word of the chain.
pub fn follow(s: &[i64], at: usize) -> usize
    requires { (at < length s.now) × (word s.now at ≡ pos (nat_abs (word s.now at))) }
    ensures { result ≡ nat_abs (word s.now at) }
{
    let z = s[at];
    z as usize
}
