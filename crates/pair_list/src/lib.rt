// Where the pairs of a list, and the circuits of a pair, lie in words and bytes.
// Kept (buffers): a pair, its heads and its gates have places in all words, in `Framed`, `Placed` and the specs; of words cut from a place on each of these would be said anew.
#![tactic(auto)]

ghost use Rattle.std.specs.Prelude.{◌≡◌, ◌+◌, ◌≤◌, length};
ghost use Rattle.pair_list.specs.Pairs.{circuit_head, pair_head, bits_at, gate_words_at, pair_words, pair_bytes, circuit_at, pair_at, framed, framing};
ghost use Rattle.pair_list.specs.Inner.Spots.{Framed, Placed, circuit_in, pair_in};

use circuit::Circuit;
use verdict::{Refusal, Verdict};

// The words of a circuit's head.
pub const CIRCUIT_HEAD: usize = 3;

// The words of a pair's head.
pub const PAIR_HEAD: usize = 6;

// Two circuits, lent by the list: the store of each has a byte for each classical bit.
#[derive(Clone, Copy)]
pub struct Pair<'a> {
    pub left: Circuit<'a>,
    pub right: Circuit<'a>,
}

// A list of pairs as it is lent: how many there are, the words of their heads and gates, and the bytes of their stores.
#[derive(Clone, Copy)]
pub struct PairList<'a> {
    pub count: usize,
    pub words: &'a [u32],
    pub stores: &'a [u8],
}

// Where a pair begins: its words, and its stores.
#[derive(Clone, Copy, Default)]
pub struct Place {
    pub at: usize,
    pub from: usize,
}

// The classical bits of the circuit whose head is at `head`.
fn bits_at(words: &[u32], head: usize) -> usize
    requires { head + circuit_head ≤ length words.now }
    ensures { (result ≡ bits_at words.now head) × (result ≤ 4294967295) }
{
    words[head + 1] as usize
}

// Its gates' words.
fn gate_words_at(words: &[u32], head: usize) -> usize
    requires { head + circuit_head ≤ length words.now }
    ensures { (result ≡ gate_words_at words.now head) × (result ≤ 4294967295) }
{
    words[head + 2] as usize
}

// The words of the pair at `at`.
pub fn pair_words(words: &[u32], at: usize) -> usize
    requires { at + pair_head ≤ length words.now }
    ensures { result ≡ pair_words words.now at }
{
    PAIR_HEAD + (gate_words_at(words, at) + gate_words_at(words, at + CIRCUIT_HEAD))
}

// The bytes of its stores.
pub fn pair_bytes(words: &[u32], at: usize) -> usize
    requires { at + pair_head ≤ length words.now }
    ensures { result ≡ pair_bytes words.now at }
{
    bits_at(words, at) + bits_at(words, at + CIRCUIT_HEAD)
}

impl<'a> PairList<'a> {
    // Whether a pair is at this place.
    fn is_framed(self, place: Place) -> bool
        requires { (place.at ≤ length self.words.now) × (place.from ≤ length self.stores.now) }
        ensures { let l = self.entry in result ≡ framed l.words.now l.stores.now place.at place.from }
    {
        let (words, bytes) = (self.words.len() - place.at, self.stores.len() - place.from);
        if words < PAIR_HEAD {
            return false;
        }
        pair_words(self.words, place.at) <= words && pair_bytes(self.words, place.at) <= bytes
    }

    // The place behind the pair at this one.
    pub fn behind(self, place: Place) -> Place
        requires { Framed self.words.now self.stores.now place.at place.from }
        ensures at { result.at ≡ place.at + pair_words self.entry.words.now place.at }
        ensures from { result.from ≡ place.from + pair_bytes self.entry.words.now place.at }
    {
        Place {
            at: place.at + pair_words(self.words, place.at),
            from: place.from + pair_bytes(self.words, place.at),
        }
    }

    // Whether `count` pairs are all that the words and bytes hold; else the number of the first that is not there.
    pub fn judge(self) -> Verdict
        ensures { let l = self.entry in result ≡ framing l.words.now l.stores.now l.count }
    {
        let mut place = Place::default();
        for i in 0..self.count {
            if !self.is_framed(place) {
                return Err(Refusal::MalformedAt(i));
            }
            place = self.behind(place);
        }
        if place.at == self.words.len() && place.from == self.stores.len() {
            return Ok(());
        }
        Err(Refusal::MalformedAt(self.count))
    }

    // The circuit whose head is at `head`, with its gates and its store from there on.
    fn circuit_at(self, head: usize, gates: usize, store: usize) -> Circuit<'a>
        requires { Placed self.words.now self.stores.now head gates store }
        ensures { circuit_in result ≡ circuit_at self.entry.words.now self.entry.stores.now head gates store }
    {
        let (words, stores) = (self.words, self.stores);
        Circuit {
            qubits: words[head],
            bits: words[head + 1],
            store: &stores[store..store + bits_at(words, head)],
            gates: &words[gates..gates + gate_words_at(words, head)],
        }
    }

    // The pair at this place.
    pub fn pair_at(self, place: Place) -> Pair<'a>
        requires { Framed self.words.now self.stores.now place.at place.from }
        ensures { pair_in result ≡ pair_at self.entry.words.now self.entry.stores.now place.at place.from }
    {
        let gates = place.at + PAIR_HEAD;
        Pair {
            left: self.circuit_at(place.at, gates, place.from),
            right: self.circuit_at(
                place.at + CIRCUIT_HEAD,
                gates + gate_words_at(self.words, place.at),
                place.from + bits_at(self.words, place.at),
            ),
        }
    }
}
