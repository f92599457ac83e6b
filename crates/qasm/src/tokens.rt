// A text as tokens, one after the other.
ghost use Rattle.std.specs.Prelude.{◌≡◌, Bool, ℕ, ◌≤◌, ◌<◌, length};
ghost use Rattle.qasm.specs.Tokens.{is_blank, in_word, run};
ghost use Rattle.qasm.specs.Inner.Scanning.{first_part};

use super::bytes::{is_blank, is_small, opens_word};
use text::bytes::is_digit;

// What a text begins with, behind blanks.
pub const HEADER: [u8; 13] = *b"OPENQASM 2.0;";

// A word, a number or a sign, and the position in the text where it begins.
#[derive(Clone, Copy)]
pub struct Token<'a> {
    pub at: usize,
    pub bytes: &'a [u8],
}

impl<'a> Token<'a> {
    ghost use Rattle.qasm.specs.Tokens.{is_word, is_name};
    ghost use Rattle.qasm.specs.Inner.Left.{token_of};

    // Whether it begins as a word does.
    pub fn opens_word(self) -> bool
        ensures { result ≡ is_word (token_of self.entry) }
    {
        self.bytes.first().is_some_and(|&b| opens_word(b))
    }

    // Whether it begins as the name of a register does.
    pub fn opens_name(self) -> bool
        ensures { result ≡ is_name (token_of self.entry) }
    {
        self.bytes.first().is_some_and(|&b| is_small(b))
    }
}

// The tokens of a text from `at` on.
// Kept: each token is given with its position in the whole text, which a slice of the rest would not tell.
#[derive(Clone, Copy)]
pub struct Tokens<'a> {
    text: &'a [u8],
    at: usize,
    ghost inside: { at ≤ length text.now },
}

// What stands at the front of a text, and how many bytes it has.
#[derive(Clone, Copy)]
pub enum Part {
    Gap(usize),
    Bytes(usize),
}

// How many bytes of a text stand before the first that fails the test.
// Kept: `text.iter().position(|&b| !test(b))` was tried; for a test that is any closure its proof did not close.
fn run<F: Fn(u8) -> bool>(text: &[u8], test: F) -> usize
    requires { (b : ℕ) → F.pre test b }
    ensures value { (p : ℕ → Bool) → ((b : ℕ) (r : Bool) → b < 256 → F.post test b r → r ≡ p b) → result ≡ run p text.now }
    ensures most { result ≤ length text.now }
{
    for i in 0..text.len() {
        if !test(text[i]) {
            return i;
        }
    }
    text.len()
}

// How many blanks a text begins with.
pub fn blanks(text: &[u8]) -> usize
    ensures { result ≡ run is_blank text.now }
{
    run(text, is_blank)
}

fn is_in_word(b: u8) -> bool
    ensures { result ≡ in_word b }
{
    opens_word(b) || is_digit(b)
}

// The gap or the token at the front of a text that has not ended.
#[tactic(auto, using(crate::proofs::Scanning::run_most))]
fn first_part(text: &[u8]) -> Option<Part>
    ensures { result ≡ first_part text.now }
{
    let (&b, later) = text.split_first()?;
    if is_blank(b) {
        return Some(Part::Gap(1));
    }
    if text.starts_with(b"//") {
        return Some(Part::Gap(1 + run(later, |b| b != b'\n')));
    }
    if is_digit(b) {
        return Some(Part::Bytes(1 + run(later, is_digit)));
    }
    if opens_word(b) {
        return Some(Part::Bytes(1 + run(later, is_in_word)));
    }
    if text.starts_with(b"->") {
        return Some(Part::Bytes(2));
    }
    if text.starts_with(b"\"qelib1.inc\"") {
        return Some(Part::Bytes(12));
    }
    Some(Part::Bytes(1))
}

impl<'a> Tokens<'a> {
    ghost use Rattle.std.specs.Prelude.{◌≡◌, ◌+◌, length};
    ghost use Rattle.qasm.specs.Tokens.{is_blank, run};
    ghost use Rattle.qasm.specs.Forms.{header};
    ghost use Rattle.qasm.specs.Inner.Scanning.{from};
    ghost use Rattle.qasm.specs.Inner.Left.{tokens_left};

    // The tokens behind the first `at` bytes; none behind the end.
    pub fn behind(text: &'a [u8], at: usize) -> Tokens<'a>
        ensures { tokens_left result ≡ from text.now at }
    {
        Tokens {
            text,
            at: at.min(text.len()),
        }
    }

    // The tokens behind the header.
    pub fn behind_header(text: &'a [u8]) -> Tokens<'a>
        ensures { tokens_left result ≡ from text.now (run is_blank text.now + length header) }
    {
        Tokens::behind(text, blanks(text) + HEADER.len())
    }
}

impl<'a> Iterator for Tokens<'a> {
    ghost use Rattle.std.specs.Iterator.{YieldsFirstBy, item_count};
    ghost use Rattle.qasm.specs.Inner.Left.{token_of, tokens_left};

    type Item = Token<'a>;

    ghost next_gives = { YieldsFirstBy token_of tokens_left };

    ghost remaining = { item_count tokens_left };

    fn next(&mut self) -> Option<Token<'a>> {
        // Kept: the end of a gap is found in the text, so that no `for` is plainer.
        while let Some(part) = first_part(&self.text[self.at..]) {
            let at = self.at;
            match part {
                Part::Gap(n) => self.at = at + n,
                Part::Bytes(n) => {
                    self.at = at + n;
                    return Some(Token {
                        at,
                        bytes: &self.text[at..at + n],
                    });
                }
            }
        }
        None
    }
}
