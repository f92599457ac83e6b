// Passes over many words: what all of them have in common is gathered without an early exit, so that a pass becomes vector code.
#![tactic(auto)]

ghost use Rattle.std.specs.Prelude.{◌≡◌, length};
ghost use Rattle.std.specs.Int.{w64};
ghost use Rattle.std.proofs.Common.{of_z};
ghost use Rattle.gather.specs.Words.{all_in_range, seen_of, same_words};
ghost use Rattle.gather.specs.Inner.Gathered.{edges};

use exact::MAX_NUMERATOR;
use exact::ranges::at_most;

// What is seen of numerators: whether each is in range, each even, each zero.
// Kept: three answers of one pass, each asked for by itself, and none of them a failure.
#[derive(Clone, Copy)]
pub struct Seen {
    pub range: bool,
    pub even: bool,
    pub zero: bool,
}

// What is gathered from x ^ (x << 1): the bits from 62 up are 0 exactly if each word lies from −2^61 to 2^61 − 1, bit 0 is 0 exactly if each is even,
// and all bits are 0 exactly if each word is 0.
fn gather_edges(s: &[i64]) -> i64
    ensures { of_z w64 result ≡ edges s.now 0 (length s.now) }
{
    let mut g = 0i64;
    for &x in s {
        g = g | (x ^ (x << 1));
    }
    g
}

// Whether each word is in range, word by word.
fn each_in_range(s: &[i64]) -> bool
    ensures { result ≡ all_in_range s.now 0 (length s.now) }
{
    s.iter().all(|&x| at_most(x, MAX_NUMERATOR))
}

// What is seen of words, in one pass. Only where a word reaches the edge of the range or lies outside it, the words are looked at again one by one.
pub fn see(s: &[i64]) -> Seen
    ensures { result ≡ seen_of s.now 0 (length s.now) }
{
    let g = gather_edges(s);
    let even = g & 1 == 0;
    let zero = g == 0;
    if g >> 62 == 0 {
        return Seen {
            range: true,
            even,
            zero,
        };
    }
    let range = each_in_range(s);
    Seen { range, even, zero }
}

// Whether the words of s are those of t, of which there are as many.
// Kept: by a loop over both, in which an index pairs the words as a zip would. `==` of slices takes 1.25 times as long for 2 Mi words and 3 to 4 times for 64 to 16 Ki, measured in place of `same_rows`;
// comparing two equal channels may take 1.1 times the time of plain C, and takes 1.06.
pub fn same_words(s: &[i64], t: &[i64]) -> bool
    requires { length s.now ≡ length t.now }
    ensures { result ≡ same_words s.now 0 t.now 0 (length s.now) }
{
    let mut d = 0i64;
    for i in 0..s.len() {
        d = d | (s[i] ^ t[i]);
    }
    d == 0
}

// The words of a row, which is compared at once.
const ROW: usize = 64;

// The same, row by row: the first row that differs ends it.
// Kept: as `same_words`; one place cuts a row of both.
pub fn same_rows(s: &[i64], t: &[i64]) -> bool
    requires { length s.now ≡ length t.now }
    ensures { result ≡ same_words s.now 0 t.now 0 (length s.now) }
{
    let rows = s.len() / ROW;
    for r in 0..rows {
        let k = r * ROW;
        if !same_words(&s[k..k + ROW], &t[k..k + ROW]) {
            return false;
        }
    }
    same_words(&s[rows * ROW..], &t[rows * ROW..])
}
