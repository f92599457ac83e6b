// One token after the other.
// Kept (buffers): a gate's word goes to its place in the lent room, or is left out where the room ends before it.
// Kept (switches): each arm of `take` calls a function of its own; a closure would be chosen by the same match.
// Kept (together): the room is lent to be written, the state and the token are values; a struct of the three would be made for each token and taken apart at once.
ghost use Rattle.std.specs.Prelude.{◌≡◌, true, cond, [], ◌∷◌, ◌+◌, ◌^◌, ◌<◌, set};
ghost use Rattle.std.specs.Bool.{then_some};
ghost use mathlib.Core.List.{foldl};
ghost use Rattle.std.proofs.lemmas.List.Edits.{sets};
ghost use Rattle.algebra.specs.Lists.{every};
ghost use Rattle.gate.specs.Gate.{gate_size};
ghost use Rattle.gate.specs.Kinds.{number_of};
ghost use Rattle.text.specs.Decimal.{value};
ghost use Rattle.qasm.specs.Tokens.{same, token, is_index};
ghost use Rattle.qasm.specs.Reading.{fits, wrong, unknown, fault_at, step, start};
ghost use Rattle.qasm.specs.Forms.{fresh, index};
ghost use Rattle.qasm.specs.Inner.Left.{token_of, tokens_left};
ghost use Rattle.qasm.specs.Inner.Pieces.{piece_of, pieces_of};
ghost use Rattle.qasm.specs.Inner.Progress.{index_in, with_name, with_size, opened_for, names_of, declares, Took, Sees, Stepped};

use super::names::gate_named;
use super::pieces::{CREG, Form, Piece, Register, TOP};
use super::reader::Fault;
use super::tokens::{Token, Tokens};
use gate::GATE;
use gate::kinds::Kind;
use text::number::number_in;
use verdict::Refusal;

// What has been read: the pieces that are due before the statement ends (none between statements), the registers' names (none: no bytes) and sizes, and how many words the gates have.
// Kept: a register that is not declared has a name of no bytes, as `Seen` of the specs has it, and so equals no token; with Options each test would be of `Some` of the bytes, and no plainer.
#[derive(Clone, Copy)]
pub struct Progress<'a> {
    pub due: &'static [Piece],
    pub quantum: &'a [u8],
    pub classical: &'a [u8],
    pub qubits: u32,
    pub bits: u32,
    pub words: usize,
}

// The number in a token, which has no zero in front of other digits.
fn index_in(token: &[u8]) -> Option<u32>
    ensures { result ≡ index_in token.now }
{
    match token {
        [b'0', _, ..] => None,
        _ => number_in(token),
    }
}

// Whether a token can name a register that is declared.
fn is_new_name(s: &Progress, token: Token) -> bool
    ensures { result ≡ fits (fresh 0) (names_of s.now) (token_of token.entry) }
{
    token.opens_name() && s.quantum != token.bytes && s.classical != token.bytes
}

// A word, if there is room for it.
// Kept: three lines, as `replay::words::put` has them for words of 64 bits and places of them; one function would be generic over both and need a crate below both.
fn put(gates: &mut [u32], at: usize, v: u32)
    ensures { gates.new ≡ set gates.old at v }
{
    if at < gates.len() {
        gates[at] = v;
    }
}

// The words of a gate that begins: its kind and zeros.
fn put_gate(gates: &mut [u32], at: usize, kind: Kind)
    requires { at + gate_size < 2 ^ 64 }
    ensures { gates.new ≡ sets gates.old at (number_of kind ∷ 0 ∷ 0 ∷ 0 ∷ 0 ∷ []) }
{
    put(gates, at, u32::from(kind));
    put(gates, at + 1, 0);
    put(gates, at + 2, 0);
    put(gates, at + 3, 0);
    put(gates, at + 4, 0);
}

impl<'a> Progress<'a> {
    ghost use Rattle.std.specs.Prelude.{◌≡◌, get_or, [], ◌+◌, ◌^◌, ◌<◌, List, ℕ};
    ghost use Rattle.gate.specs.Gate.{gate_size};
    ghost use Rattle.qasm.specs.Inner.Pieces.{place_of, form_of, pieces_of};
    ghost use Rattle.qasm.specs.Inner.Progress.{names_of, seen_of, with_due, with_name, with_size};

    // With these pieces due.
    fn with_due(self, due: &'static [Piece]) -> Progress<'a>
        ensures { result ≡ with_due self.entry due.entry }
    {
        Progress { due, ..self }
    }

    // With a gate's words, of which the pieces of its form are due.
    fn in_gate(self, form: Form) -> Progress<'a>
        requires { self.words + gate_size < 2 ^ 64 }
        ensures due { pieces_of result.due.now ≡ form_of form }
        ensures words { result.words ≡ self.entry.words + gate_size }
        ensures seen { (ws : List ℕ) → seen_of result ws ≡ seen_of self.entry ws }
    {
        Progress {
            due: form.pieces(),
            words: self.words + GATE,
            ..self
        }
    }

    // The name of a register.
    fn name(&self, register: Register) -> &'a [u8]
        ensures { result.now ≡ get_or (names_of self.now) (place_of register) [] }
    {
        match register {
            Register::Quantum => self.quantum,
            Register::Classical => self.classical,
        }
    }

    // With this name of a register.
    fn named(self, register: Register, name: &'a [u8]) -> Progress<'a>
        ensures { result ≡ with_name self.entry register name.entry }
    {
        match register {
            Register::Quantum => Progress {
                quantum: name,
                ..self
            },
            Register::Classical => Progress {
                classical: name,
                ..self
            },
        }
    }

    // With this size of a register.
    fn sized(self, register: Register, size: u32) -> Progress<'a>
        ensures { result ≡ with_size self.entry register size }
    {
        match register {
            Register::Quantum => Progress {
                qubits: size,
                ..self
            },
            Register::Classical => Progress { bits: size, ..self },
        }
    }
}

// What has been read with the size of a register, if the token is a number.
fn sized<'a>(s: Progress<'a>, register: Register, token: Token<'a>) -> Option<Progress<'a>>
    ensures { result ≡ then_some (is_index (token_of token.entry)) (with_size s.entry register (value token.entry.bytes.now)) }
{
    let size = index_in(token.bytes)?;
    Some(s.sized(register, size))
}

// What has been read, if the token is this one.
fn matching<'a>(s: Progress<'a>, bytes: &[u8], token: Token<'a>) -> Option<Progress<'a>>
    ensures { result ≡ then_some (same bytes.now token.entry.bytes.now) s.entry }
{
    (bytes == token.bytes).then_some(s)
}

// What has been read with the name of a register, if the token can be one.
fn named<'a>(s: Progress<'a>, register: Register, token: Token<'a>) -> Option<Progress<'a>>
    ensures { result ≡ then_some (fits (fresh 0) (names_of s.entry) (token_of token.entry)) (with_name s.entry register token.entry.bytes) }
{
    is_new_name(&s, token).then_some(s.named(register, token.bytes))
}

// The number in a token, if it is one and there is room for it; whether it is one.
fn put_index(gates: &mut [u32], at: usize, bytes: &[u8]) -> bool
    ensures is_one { result ≡ is_index (token 0 bytes.now) }
    ensures written { gates.new ≡ cond (is_index (token 0 bytes.now)) (set gates.old at (value bytes.now)) gates.old }
{
    match index_in(bytes) {
        Some(value) => {
            put(gates, at, value);
            true
        }
        None => false,
    }
}

// What has been read with a word of a gate, if the token is a number.
fn indexed<'a>(
    gates: &mut [u32],
    s: Progress<'a>,
    word: u8,
    token: Token<'a>,
) -> Option<Progress<'a>>
    requires { opened_for s.words (index word) ≡ true }
    ensures { Took s.entry gates.old (index word) (token_of token.entry) result gates.new }
{
    put_index(gates, s.words - GATE + word as usize, token.bytes).then_some(s)
}

// What has been read with a token where this piece is due, if it can stand there. A word that it says is written where there is room for it.
fn take<'a>(
    gates: &mut [u32],
    s: Progress<'a>,
    piece: Piece,
    token: Token<'a>,
) -> Option<Progress<'a>>
    requires { opened_for s.words (piece_of piece) ≡ true }
    ensures { Took s.entry gates.old (piece_of piece) (token_of token.entry) result gates.new }
{
    match piece {
        Piece::Fixed(bytes) => matching(s, bytes, token),
        Piece::Fresh(register) => named(s, register, token),
        Piece::Size(register) => sized(s, register, token),
        Piece::Used(register) => matching(s, s.name(register), token),
        Piece::Index(word) => indexed(gates, s, word, token),
    }
}

// The fault of a token where the name of a gate or of a register is due.
// Kept: the index is that of a gate which is written; in a text the position of the `Fault` says where, and the C interface answers 0 for the index.
fn unknown(token: Token) -> Fault
    ensures { result ≡ fault_at (unknown (token_of token.entry)) token.entry.at }
{
    let refusal = if token.opens_word() {
        Refusal::UnknownNameAt(0)
    } else {
        Refusal::BadText
    };
    Fault {
        refusal,
        position: token.at,
    }
}

// The fault of a token that cannot stand where the piece is due.
fn wrong(piece: Piece, token: Token) -> Fault
    ensures { result ≡ fault_at (wrong (piece_of piece) (token_of token.entry)) token.entry.at }
{
    match piece {
        Piece::Used(_) => unknown(token),
        _ => Fault {
            refusal: Refusal::BadText,
            position: token.at,
        },
    }
}

// Whether a word declares the classical register, which it may once and before all gates.
fn declares(s: &Progress, word: &[u8]) -> bool
    ensures { result ≡ declares s.now word.now }
{
    s.classical.is_empty() && s.words == 0 && word == b"creg".as_slice()
}

// The first token of a statement: creg, or a gate's name.
fn open<'a>(gates: &mut [u32], s: Progress<'a>, token: Token<'a>) -> Result<Progress<'a>, Fault>
    requires due { s.due.now ≡ [] }
    requires few { s.words + gate_size < 2 ^ 64 }
    ensures { Stepped s.entry gates.old (token_of token.entry) result gates.new }
{
    if declares(&s, token.bytes) {
        return Ok(s.with_due(&CREG));
    }
    match gate_named(token.bytes) {
        Some((kind, form)) => {
            put_gate(gates, s.words, kind);
            Ok(s.in_gate(form))
        }
        None => Err(unknown(token)),
    }
}

// One token.
fn step<'a>(gates: &mut [u32], s: Progress<'a>, token: Token<'a>) -> Result<Progress<'a>, Fault>
    requires few { s.words + gate_size < 2 ^ 64 }
    requires opened { every (opened_for s.words) (pieces_of s.due.now) ≡ true }
    ensures { Stepped s.entry gates.old (token_of token.entry) result gates.new }
{
    let Some((&piece, due)) = s.due.split_first() else {
        return open(gates, s, token);
    };
    match take(gates, s.with_due(due), piece, token) {
        Some(s) => Ok(s),
        None => Err(wrong(piece, token)),
    }
}

// All tokens up to the first fault. The gates' words are written as far as there is room for them.
pub fn run<'a>(tokens: Tokens<'a>, gates: &mut [u32]) -> Result<Progress<'a>, Fault>
    ensures { Sees gates.old result gates.new (foldl step start (tokens_left tokens.entry)) }
{
    let mut s: Progress<'a> = Progress {
        due: &TOP,
        quantum: &[],
        classical: &[],
        qubits: 0,
        bits: 0,
        words: 0,
    };
    for token in tokens {
        s = step(gates, s, token)?;
    }
    Ok(s)
}
