// The block of a store, as a part of the channel's words.
// Kept (facts): only find_store and the printers of listing ask for well-formed words: a struct of them, answered by `judge`, would be taken apart by all its other callers.
ghost use Rattle.std.specs.Prelude.{◌≡◌, true, nat_abs};
ghost use Rattle.channel.specs.Layout.{word, count_at};
ghost use Rattle.channel.specs.WellFormed.{well_formed};
ghost use Rattle.channel.specs.Lookup.{find, lookup_of, part_of, span_of};

use super::layout::{EXPONENT, block_size, follow, read_store};
use super::well_formed::judge;
use store::{is_store, pack};

// Kept: C is handed the start, which a slice does not tell; `lookup` makes the slice of it at once.
// A part of a slice.
#[derive(Clone, Copy)]
pub struct Span {
    pub start: usize,
    pub size: usize,
}

// Kept: count is the header's, and no length: the words may go on behind the last record.
// The index of the record of a store in a well-formed channel of `count` blocks.
fn find_store(s: &[i64], store: u64, count: usize) -> Option<usize>
    requires { (well_formed s.now ≡ true) × (count ≡ count_at s.now) }
    ensures { result ≡ find s.now store count (nat_abs (word s.now 3)) }
{
    let mut at = follow(s, 3);
    for i in 0..count {
        if read_store(s, at) == store {
            return Some(at);
        }
        at = follow(s, at);
    }
    None
}

// Where a store's block lies: its exponent, then its numerators.
pub fn locate(s: &[i64], store: &[u8]) -> Option<Span>
    ensures { result ≡ span_of s.now (lookup_of s.now store.now) }
{
    let Ok(h) = judge(s) else {
        return None;
    };
    if !is_store(store, h.bits) {
        return None;
    }
    let at = find_store(s, pack(store), h.count)?;
    let w = h.dim * h.dim;
    Some(Span {
        start: at + EXPONENT,
        size: 1 + block_size(w),
    })
}

// The part of the channel's words that holds a store's block, its exponent and then its numerators: empty for a channel that is malformed or
// has a block of zeros, for a store of the wrong length or with a byte above 1, and where the channel has no such block.
pub fn lookup<'a>(channel: &'a [i64], store: &[u8]) -> &'a [i64]
    ensures { result.now ≡ part_of channel.now (lookup_of channel.now store.now) }
{
    match locate(channel, store) {
        Some(p) => &channel[p.start..p.start + p.size],
        None => &[],
    }
}
