// Decimal numbers in a text, each ended by a space, a newline or the text's end.
// Kept (buffers): a place in the text, as in words.rt.
// Kept (twins): `low` and `size` turn a number of each type both ways; in the trait they are heads alone, and each body is the one expression of its type; `low` keeps the low bits of what does not fit, where TryFrom refuses.
ghost use Rattle.std.specs.Prelude.{◌≡◌, ℕ};
ghost use Rattle.replay.specs.Numerals.{with_byte, signed, word_of, word_at, low_byte, low_word};

use text::bytes::{is_blank, is_digit};
use text::number::{MAX_TENTH, with_digit};

// A number, its size with no sign, and where the next one begins.
// Kept: each place of a text has a number, so that there is no Option or Result to answer with, and the next one is read on from its place.
#[derive(Clone, Copy)]
pub struct Word {
    pub value: i64,
    pub size: u64,
    pub next: usize,
}

// What is read of a number: its digits' value, and whether a minus sign came.
// Kept: a minus sign comes before the first digit, where a signed number is 0 and cannot hold it; an enum of two signs would have the size in both.
#[derive(Clone, Copy)]
struct Digits {
    pub size: u64,
    pub negative: bool,
}

impl Digits {
    // With one more byte. What is neither a digit nor a minus sign, or would not fit, is passed over.
    #[tactic(auto, unfolding(crate::specs::Numerals::with_byte))]
    fn with(self, b: u8) -> Digits
        ensures { result ≡ with_byte self b }
    {
        let size = self.size;
        let negative = self.negative;
        if b == b'-' {
            return Digits {
                size,
                negative: true,
            };
        }
        if !is_digit(b) {
            return self;
        }
        if MAX_TENTH < size {
            return self;
        }
        Digits {
            size: with_digit(size, b),
            negative,
        }
    }

    // As a signed word, the nearest where it does not fit.
    #[tactic(auto, unfolding(crate::specs::Numerals::signed))]
    fn signed(self) -> i64
        ensures { result ≡ signed self }
    {
        match i64::try_from(self.size) {
            Ok(size) => { if self.negative { -size } else { size } }
            Err(_) => { if self.negative { i64::MIN } else { i64::MAX } }
        }
    }

    // The number, once the next one is known to begin at `next`.
    fn word(self, next: usize) -> Word
        ensures { result ≡ word_of self next }
    {
        Word {
            value: self.signed(),
            size: self.size,
            next,
        }
    }
}

// The number that begins at `at`.
pub fn read(text: &[u8], at: usize) -> Word
    ensures { result ≡ word_at text.now at }
{
    let mut digits = Digits {
        size: 0,
        negative: false,
    };
    for i in at..text.len() {
        let b = text[i];
        if is_blank(b) {
            return digits.word(i + 1);
        }
        digits = digits.with(b);
    }
    digits.word(at.max(text.len()))
}

// The low 32 bits.
pub fn low(size: u64) -> u32
    ensures { result ≡ low_word size }
{
    (size % 4294967296) as u32
}

// The unsigned integers that a text's numbers are read into and held against.
pub trait Number: Copy {
    // What is kept of a number, which may be larger.
    ghost low_of: { ℕ → Self };

    ghost size_of: { Self → ℕ };

    fn low(size: u64) -> Self
        ensures { result ≡ low_of size };

    fn size(self) -> u64
        ensures { result ≡ size_of self };
}

impl Number for u8 {
    ghost low_of = { low_byte };

    ghost size_of = { λ n. n };

    fn low(size: u64) -> u8 {
        (size % 256) as u8
    }

    fn size(self) -> u64 {
        u64::from(self)
    }
}

impl Number for u32 {
    ghost low_of = { low_word };

    ghost size_of = { λ n. n };

    fn low(size: u64) -> u32 {
        low(size)
    }

    fn size(self) -> u64 {
        u64::from(self)
    }
}

impl Number for u64 {
    ghost low_of = { λ n. n };

    ghost size_of = { λ n. n };

    fn low(size: u64) -> u64 {
        size
    }

    fn size(self) -> u64 {
        self
    }
}
