// Numerators over one power of two brought to their shared form in place: the bits that some word has, and all words shifted.
// Kept (buffers, together): the numbers of a matrix or a block lie in a buffer that is lent whole, and its words are counted from its first on, row after row: given a cut row, the caller would have to
// show of each row what its words are in the block, and what the shifted ones make of the result.
// Kept (facts): t ≤ 63, the bits of a word, is what a shift itself asks.
#![tactic(auto)]

ghost use Rattle.std.specs.Prelude.{◌≡◌, ℕ, ◌+◌, ◌*◌, ◌^◌, ◌<◌, ◌≤◌, length, get_or, pos};
ghost use Rattle.std.specs.Int.Signed.{shr_z};
ghost use Rattle.std.specs.Int.{w64};
ghost use Rattle.std.proofs.Common.{SFits, of_z};
ghost use Rattle.algebra.specs.Words.{fill_words};
ghost use Rattle.share.specs.Share.{or_words, shared_from, with_numerators};

use channel::layout::ENTRY;
use exact::numerators::common_zeros;

// The bits that g has or some of n words from `at` on.
pub fn or_more(s: &[i64], at: usize, n: usize, g: i64) -> i64
    requires { at + n ≤ length s.now }
    ensures bits { of_z w64 result ≡ or_words (of_z w64 g) s.now at n }
    ensures fit { (i : ℕ) → i < n → SFits w64 (get_or s.now (at + i) (pos 0)) }
{
    let mut h = g;
    for i in 0..n {
        h = h | s[at + i];
    }
    h
}

// Shift each of n words by t.
pub fn shift_words(s: &mut [i64], at: usize, n: usize, t: u32)
    requires { (at + n ≤ length s.old) × (t ≤ 63) }
    ensures { s.new ≡ fill_words s.old at n (λ (i : ℕ). shr_z (get_or s.old (at + i) (pos 0)) (2 ^ t)) }
{
    if t == 0 {
        return;
    }
    for i in 0..n {
        let x = s[at + i];
        s[at + i] = x >> t;
    }
}

// Bring n numbers from `at` on, over 2^e, to their shared form; its exponent.
pub fn share_numbers(s: &mut [i64], at: usize, n: usize, e: u32) -> u32
    requires { (at + n * 4 ≤ length s.old) × (e ≤ 63) }
    ensures exponent { result ≡ (shared_from s.old at n e).exp }
    ensures numerators { s.new ≡ with_numerators s.old at n (shared_from s.old at n e).num }
{
    if e == 0 {
        return 0;
    }
    let g = or_more(s, at, n * ENTRY, 0);
    let t = common_zeros(g, 0, 0, 0).min(e);
    shift_words(s, at, n * ENTRY, t);
    e - t
}
