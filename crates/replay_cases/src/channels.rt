// Cases of channels that are given by their words: compare, classical_blocks, povm_effects and the lookup.
// Kept (buffers): the places in the text are those of crate replay, which says why.
// Kept (together): a record and its text, as in replay::answers.
ghost use Rattle.std.specs.Prelude.{◌≡◌, take, replicate, pos};
ghost use Rattle.replay_cases.specs.Words.{with_four, words_case};

use channel::lookup::lookup;
use replay::answers::check_part;
use replay::calls::{compare_call, effects_call, povm_call};
use replay::numeral::read;
use replay::record::Record;
use replay::words::{fitting, read_numbers, read_words};

// Room for the words of a channel, for those of its effects, and for a store.
const CHANNEL: usize = 1300;

const EFFECTS: usize = 100;

const STORE: usize = 65;

// The answers of the four calls, with effects in buffers of this length.
fn four_calls(
    seen: Record,
    text: &[u8],
    left: &[i64],
    right: &[i64],
    store: &[u8],
    length: u64,
) -> Record
    ensures { result ≡ with_four text.now seen left.now right.now store.now (take length (replicate 100 (pos 0))) }
{
    let mut effects = [0i64; EFFECTS];
    let mut povm = [0i64; EFFECTS];
    let e = fitting(length, EFFECTS);
    let compared = compare_call(seen, text, left, right);
    let traced = effects_call(compared, text, left, &mut effects[..e]);
    let measured = povm_call(traced, text, left, &mut povm[..e]);
    check_part(measured, text, lookup(left, store))
}

// Left and right words, the length of the effects' buffers, the store to look for; the answers of the four calls.
#[inline(never)]
pub fn words_case(text: &[u8], at: usize) -> Record
    ensures { result ≡ words_case text.now at }
{
    let mut left_room = [0i64; CHANNEL];
    let mut right_room = [0i64; CHANNEL];
    let mut store_room = [0u8; STORE];
    let left = read_words(text, at, &mut left_room);
    let right = read_words(text, left.next, &mut right_room);
    let length = read(text, right.next);
    let store = read_numbers(text, length.next, &mut store_room);
    four_calls(
        Record::begin(store.next),
        text,
        left.words,
        right.words,
        store.words,
        length.size,
    )
}
