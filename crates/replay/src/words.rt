// Words and bytes read into lent slices, and the contents that lent words have before a call.
// Kept (buffers): a place in the text is what each reader hands to the next one. With the part that is left in its place, each answer would borrow the text, and all that is said by places would have to be
// said of parts; a cursor would be changed by each read, and a clause that now is one definition of a text and a place would name it before and after.
// Kept (twins): Line, ScalarRead and Bounds of replay_cases are each a value with the next place; one struct of any T would say `value` for bytes and limits, too. `read_words` and `read_numbers` each split what another function filled.
ghost use Rattle.std.specs.Prelude.{◌≡◌, ◌≤◌, ◌+◌, ◌++◌, min, length, drop, set};
ghost use Rattle.replay.specs.Numerals.{word_at, word_no};
ghost use Rattle.replay.specs.Words.{marked, all_placed, placed_at, numbers_at};

use crate::numeral::{Number, read};

// What was read into a slice, what stands behind it there, and where the next number of the text begins.
#[derive(Clone, Copy)]
pub struct Part<'a, T> {
    pub words: &'a [T],
    pub rest: &'a [T],
    pub next: usize,
}

// The lesser of a count and a length.
pub fn fitting(count: u64, most: usize) -> usize
    ensures { result ≡ min count most }
{
    count.min(most as u64) as usize
}

// Each word its place mod 997, plus 1.
pub fn mark(buf: &mut [i64])
    ensures { buf.new ≡ marked buf.old }
{
    for (i, word) in buf.iter_mut().enumerate() {
        *word = (i % 997 + 1) as i64;
    }
}

// A place behind the end is passed over.
// Kept: qasm::steps has the same of u32; a function of both would be a generic public one in a crate below, for an `if` and a store.
fn put(buf: &mut [i64], place: u64, value: i64)
    ensures { buf.new ≡ set buf.old place value }
{
    if place < buf.len() as u64 {
        buf[place as usize] = value;
    }
}

// How many places of a slice hold what was read, and where the next number of the text begins.
#[derive(Clone, Copy)]
pub struct Extent {
    pub len: usize,
    pub next: usize,
}

// Kept: inlined, so that a caller's new buffer is filled with zeros once, and not here as well.
// A length; how many words of the text are not 0, and place and value of each. All other places are 0, also behind the length.
#[inline(always)]
pub fn fill_words(text: &[u8], at: usize, buf: &mut [i64]) -> Extent
    ensures len { result.len ≡ min (word_no text.now at 0).size (length buf.old) }
    ensures room { result.len ≤ length buf.old }
    ensures words { buf.new ≡ (all_placed text.now at (length buf.old)).words }
    ensures next { result.next ≡ (placed_at text.now at (length buf.old)).next }
{
    let length = read(text, at);
    let len = fitting(length.size, buf.len());
    let count = read(text, length.next);
    buf.fill(0);
    let mut next = count.next;
    for _i in 0..count.size {
        let place = read(text, next);
        let word = read(text, place.next);
        next = word.next;
        put(buf, place.size, word.value);
    }
    Extent { len, next }
}

// The same, where the slice is lent for as long as its parts are read.
pub fn read_words<'a>(text: &[u8], at: usize, buf: &'a mut [i64]) -> Part<'a, i64>
    ensures words { result.words.now ≡ (placed_at text.now at (length buf.old)).words }
    ensures rest { result.rest.now ≡ drop (length result.words.now) (all_placed text.now at (length buf.old)).words }
    ensures room { length result.words.now + length result.rest.now ≡ length buf.old }
    ensures next { result.next ≡ (placed_at text.now at (length buf.old)).next }
{
    let filled = fill_words(text, at, buf);
    let (words, rest) = buf.split_at(filled.len);
    Part {
        words,
        rest,
        next: filled.next,
    }
}

// A count, then as many numbers, of which those are kept for which there is room, each as far as it fits. What stands behind them stays.
pub fn fill_numbers<T: Number>(text: &[u8], at: usize, buf: &mut [T]) -> Extent
    ensures len { result.len ≡ min (word_at text.now at).size (length buf.old) }
    ensures room { result.len ≤ length buf.old }
    ensures words { buf.new ≡ (numbers_at T.low_of text.now at (length buf.old)).words ++ drop result.len buf.old }
    ensures next { result.next ≡ (numbers_at T.low_of text.now at (length buf.old)).next }
{
    let count = read(text, at);
    let len = fitting(count.size, buf.len());
    let (words, _) = buf.split_at_mut(len);
    let mut next = count.next;
    for kept in words.iter_mut() {
        let word = read(text, next);
        next = word.next;
        *kept = T::low(word.size);
    }
    Extent { len, next }
}

// The same, where the slice is lent for as long as its parts are read.
pub fn read_numbers<'a, T: Number>(text: &[u8], at: usize, buf: &'a mut [T]) -> Part<'a, T>
    ensures words { result.words.now ≡ (numbers_at T.low_of text.now at (length buf.old)).words }
    ensures rest { result.rest.now ≡ drop (length result.words.now) buf.old }
    ensures room { length result.words.now + length result.rest.now ≡ length buf.old }
    ensures next { result.next ≡ (numbers_at T.low_of text.now at (length buf.old)).next }
{
    let filled = fill_numbers(text, at, buf);
    let (words, rest) = buf.split_at(filled.len);
    Part {
        words,
        rest,
        next: filled.next,
    }
}
