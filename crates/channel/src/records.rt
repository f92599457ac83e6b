// The records of a channel, or of words of another form: each by the words from its first on, and the form of its block.
// Kept (facts): a header answers its bits as a number, which compare and the printers read as one; a type of at most 64 bits would be opened by each of them to save two clauses here.
ghost use Rattle.std.specs.Prelude.{◌≡◌, true, ℕ, ◌+◌, ◌*◌, ◌≤◌, length, drop};
ghost use Rattle.algebra.specs.Words.{up_to};
ghost use Rattle.exact.specs.Exact.{number_of, list_of};
ghost use Rattle.store.specs.Store.{store_from};
ghost use Rattle.channel.specs.Layout.{record_size, entry_size, entry_from, word, store_at, numbers_at};
ghost use Rattle.channel.specs.WellFormed.{is_real, words_ok, store_ok, diagonal_ok, block_ok};
ghost use Rattle.channel.specs.Inner.Shapes.{when, blank};
ghost use Rattle.channel.specs.Inner.Kept.{Kept};

use super::forms::Form;
use super::layout::{EXPONENT, RECORD_HEAD, up_to};
use exact::MAX_EXPONENT;
use gather::see;
use store::{MAX_WORD, fits_bits, join};

// A record whose words are there.
#[derive(Clone, Copy)]
pub struct Record<'a> {
    pub words: &'a [i64],
    pub form: Form,
    ghost inside: { record_size form ≤ length words.now },
}

// Kept: no Record with a fact beside it: callers read its words and its form, and would name both through the record.
// A record whose block is right.
#[derive(Clone, Copy)]
pub struct Block<'a> {
    pub words: &'a [i64],
    pub form: Form,
    ghost inside: { record_size form ≤ length words.now },
    ghost right: { block_ok form words.now 0 ≡ true },
}

// The store in two words, if it has at most m bits.
fn judge_words(low: i64, high: i64, m: u32) -> Option<u64>
    requires { m ≤ 64 }
    ensures { result ≡ when (words_ok low high m) (store_from low high) }
{
    if !(up_to(MAX_WORD, low) & up_to(MAX_WORD, high)) {
        return None;
    }
    let store = join(low, high);
    if !fits_bits(store, m) {
        return None;
    }
    Some(store)
}

// Kept: a place in the words of its record: of a slice cut to the entry, its one caller, `Record::kept`, would show a length that hangs on `plain`.
// The numerators of an entry whose words begin at p.
pub fn read_kept(s: &[i64], p: usize, plain: bool) -> [i64; 4]
    requires { p + entry_size plain ≤ length s.now }
    ensures { result ≡ list_of (entry_from plain (λ (i : ℕ). word s.now (p + i))) }
{
    let a = s[p];
    let b = s[p + 1];
    if plain {
        return [a, 0, b, 0];
    }
    let c = s[p + 2];
    let d = s[p + 3];
    [a, b, c, d]
}

// Whether a number is its own conjugate.
fn is_real(x: [i64; 4]) -> bool
    ensures { result ≡ is_real (number_of x) }
{
    (x[2] == 0) & (x[3] == 0)
}

impl<'a> Record<'a> {
    // The record at an index.
    pub fn at(words: &'a [i64], form: Form, at: usize) -> Record<'a>
        requires { at + record_size form ≤ length words.now }
        ensures words { result.words.now ≡ drop at words.now }
        ensures form { result.form ≡ form }
    {
        Record {
            words: &words[at..],
            form,
        }
    }

    // The index of the record that comes next.
    pub fn next(&self) -> i64
        ensures { result ≡ word self.now.words.now 0 }
    {
        self.words[0]
    }

    // Its store, if that has at most m bits.
    pub fn judge_store(&self, m: u32) -> Option<u64>
        requires { m ≤ 64 }
        ensures { result ≡ when (store_ok self.now.words.now 0 m) (store_at self.now.words.now 0) }
    {
        judge_words(self.words[1], self.words[2], m)
    }

    // The numerators of entry (r, c), which is kept.
    pub fn kept(&self, r: usize, c: usize) -> [i64; 4]
        requires { Kept self.now.form r c }
        ensures { result ≡ list_of (numbers_at self.now.form self.now.words.now 0 (r * self.now.form.side + c)) }
    {
        let p = RECORD_HEAD + self.form.place(r, c);
        read_kept(self.words, p, self.form.is_plain())
    }

    // Whether the diagonal is real, where half of the block is kept.
    fn diagonal_ok(&self) -> bool
        ensures { result ≡ diagonal_ok self.now.form (numbers_at self.now.form self.now.words.now 0) }
    {
        if !self.form.is_half() {
            return true;
        }
        for r in 0..self.form.side() {
            if !is_real(self.kept(r, r)) {
                return false;
            }
        }
        true
    }

    // Whether all numerators that are kept are zero, if the block is right: its exponent and they are a shared form in range, with a real diagonal where
    // half is kept. The words are read in one pass.
    pub fn judge_block(&self) -> Option<bool>
        ensures { result ≡ when (block_ok self.now.form self.now.words.now 0) (blank self.now.form self.now.words.now 0) }
    {
        let e = self.words[EXPONENT];
        if !up_to(MAX_EXPONENT as u64, e) {
            return None;
        }
        let n = self.form.block_size();
        let g = see(&self.words[RECORD_HEAD..RECORD_HEAD + n]);
        if !(g.range & ((e == 0) | !g.even)) {
            return None;
        }
        if !self.diagonal_ok() {
            return None;
        }
        Some(g.zero)
    }
}

impl<'a> Block<'a> {
    // The record at an index.
    pub fn at(words: &'a [i64], form: Form, at: usize) -> Block<'a>
        requires inside { at + record_size form ≤ length words.now }
        requires right { block_ok form words.now at ≡ true }
        ensures words { result.words.now ≡ drop at words.now }
        ensures form { result.form ≡ form }
    {
        let record = Record::at(words, form, at);
        Block {
            words: record.words,
            form,
        }
    }

    // The numerators of entry (r, c), which is kept.
    pub fn kept(&self, r: usize, c: usize) -> [i64; 4]
        requires { Kept self.now.form r c }
        ensures { result ≡ list_of (numbers_at self.now.form self.now.words.now 0 (r * self.now.form.side + c)) }
    {
        let record = Record {
            words: self.words,
            form: self.form,
        };
        record.kept(r, c)
    }
}
