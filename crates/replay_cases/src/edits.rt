// Cases of kept circuits: an edit of the words, then the verdict on them and their gates copied out.
// Kept (buffers): the places in the text are those of crate replay, which says why.
// Kept (kinds, switches): an edit's number is read here and nowhere else; each edit has a call of its own, which takes what its variant holds.
ghost use Rattle.std.specs.Prelude.{◌≡◌};
ghost use Rattle.replay_cases.specs.Edits.{edit_of, edit_at, behind_edit, edit_verdict, edited_words, with_kept, with_copy, called, lent, edit_case};

use circuit::limits::Limits;
use gate::judge::GateWords;
use kept_circuit::edits::{append, remove_last, replace, start};
use kept_verdict::{copy_gates, judge_kept};
use replay::answers::check_verdict;
use replay::numeral::{low, read};
use replay::record::Record;
use replay::sum::checksum;
use replay::words::{fill_words, fitting, read_numbers};
use verdict::Verdict;

// Room for the words of a kept circuit, for a store, and for gates that are copied out.
const WORDS: usize = 5200;

const STORE: usize = 65;

const GATES: usize = 100;

// An edit of a kept circuit: a start with both counts, a gate more, the last one less, or the gate at a place replaced.
#[derive(Clone, Copy)]
enum Edit {
    Start(u32, u32),
    Append(GateWords),
    RemoveLast,
    Replace(usize, GateWords),
}

// The edit of this number; a start takes the gate's a and b as its counts.
// Kept: From takes one value, and an edit is made of three.
fn edit_of(which: u64, position: usize, gate: GateWords) -> Edit
    ensures { result ≡ edit_of which position gate }
{
    match which {
        0 => Edit::Start(gate.a, gate.b),
        1 => Edit::Append(gate),
        2 => Edit::RemoveLast,
        _ => Edit::Replace(position, gate),
    }
}

// The number of an edit, its position, and a gate's five words; and where the next number begins.
fn read_edit(text: &[u8], at: usize) -> (Edit, usize)
    ensures edit { result.0 ≡ edit_at text.now at }
    ensures next { result.1 ≡ behind_edit text.now at }
{
    let which = read(text, at);
    let position = read(text, which.next);
    let kind = read(text, position.next);
    let a = read(text, kind.next);
    let b = read(text, a.next);
    let c = read(text, b.next);
    let k = read(text, c.next);
    let gate = GateWords {
        kind: low(kind.size),
        a: low(a.size),
        b: low(b.size),
        c: low(c.size),
        k: low(k.size),
    };
    (edit_of(which.size, position.size as usize, gate), k.next)
}

// The call that the edit names.
fn edited(e: Edit, words: &mut [i64]) -> Verdict
    ensures verdict { result ≡ edit_verdict e words.old }
    ensures words { words.new ≡ edited_words e words.old }
{
    match e {
        Edit::Start(qubits, bits) => start(qubits, bits, words),
        Edit::Append(g) => append(words, g),
        Edit::RemoveLast => remove_last(words),
        Edit::Replace(position, g) => replace(words, position, g),
    }
}

// The verdict on the words.
fn check_kept(seen: Record, text: &[u8], words: &[i64], store: &[u8], res: u64, work: u64) -> Record
    ensures { result ≡ with_kept text.now seen words.now store.now res work }
{
    let v = judge_kept(words, store, Limits::defaults(), res, work);
    check_verdict(seen, text, v)
}

// The copy of the gates: the verdict, and each word of the room.
fn check_copy(seen: Record, text: &[u8], words: &[i64], out: &mut [u32]) -> Record
    ensures { result ≡ with_copy text.now seen words.now out.old }
{
    let v = copy_gates(words, out);
    let judged = check_verdict(seen, text, v);
    judged.numbers(text, out)
}

// The verdict of the edit and the checksum of the words that it leaves, then the verdict on these and their copy.
fn called(
    text: &[u8],
    at: usize,
    e: Edit,
    words: &mut [i64],
    store: &[u8],
    res: u64,
    work: u64,
    out: &mut [u32],
) -> Record
    ensures { result ≡ called text.now at e words.old store.now res work out.old }
{
    let v = edited(e, words);
    let first = check_verdict(Record::begin(at), text, v);
    let left = first.number(text, checksum(words));
    let kept = check_kept(left, text, words, store, res, work);
    check_copy(kept, text, words, out)
}

// The same with the lengths of result and work, and of the room for the copy of the gates, each word of which is 7 before.
fn lent(text: &[u8], at: usize, e: Edit, words: &mut [i64], store: &[u8]) -> Record
    ensures { result ≡ lent text.now at e words.old store.now }
{
    let mut out = [7u32; GATES];
    let result = read(text, at);
    let work = read(text, result.next);
    let copied = read(text, work.next);
    let o = fitting(copied.size, GATES);
    called(
        text,
        copied.next,
        e,
        words,
        store,
        result.size,
        work.size,
        &mut out[..o],
    )
}

// The words before, the edit and the store; what the calls answer.
#[inline(never)]
pub fn edit_case(text: &[u8], at: usize) -> Record
    ensures { result ≡ edit_case text.now at }
{
    let mut room = [0i64; WORDS];
    let mut store_room = [0u8; STORE];
    let given = fill_words(text, at, &mut room);
    let (edit, next) = read_edit(text, given.next);
    let store = read_numbers(text, next, &mut store_room);
    lent(text, store.next, edit, &mut room[..given.len], store.words)
}
