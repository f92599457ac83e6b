// The record of a case's answers, read number by number and held against what the calls answered.
// Kept (buffers): a place in the text, as in words.rt.
// Kept (kinds): a source's number is read here and nowhere else.
ghost use Rattle.std.specs.Prelude.{◌≡◌};
ghost use Rattle.replay.specs.Record.{source_of, is_rust, begun, with_number, with_sizes, with_scalar, with_byte, with_bytes};

use crate::count::added;
use crate::numeral::{Number, read};
use crate::scalars::read_scalar;
use cells::CELL;
use scalar::Scalar;

// Where a record comes from.
#[derive(Clone, Copy)]
pub enum Source {
    Rust,
    Document,
}

impl From<u64> for Source {
    ghost from_gives = { λ number source. source ≡ source_of number };

    fn from(number: u64) -> Source {
        match number {
            0 => Source::Rust,
            _ => Source::Document,
        }
    }
}

impl Source {
    pub fn is_rust(self) -> bool
        ensures { result ≡ is_rust self }
    {
        match self {
            Source::Rust => true,
            Source::Document => false,
        }
    }
}

// Whether all that was compared so far agrees, where the rest of the record begins, and how many numbers were compared. Only the comparisons below
// change it.
// Kept: an enum of what agrees and what does not would have the other two fields in both variants, and each comparison would match on it only to write them again.
#[derive(Clone, Copy)]
pub struct Record {
    agrees: bool,
    next: usize,
    compared: u64,
}

impl Record {
    pub fn begin(at: usize) -> Record
        ensures { result ≡ begun at }
    {
        Record {
            agrees: true,
            next: at,
            compared: 0,
        }
    }

    pub fn agrees(self) -> bool
        ensures { result ≡ self.agrees }
    {
        self.agrees
    }

    pub fn next(self) -> usize
        ensures { result ≡ self.next }
    {
        self.next
    }

    pub fn compared(self) -> u64
        ensures { result ≡ self.compared }
    {
        self.compared
    }

    // The next number is this one.
    pub fn number(self, text: &[u8], n: u64) -> Record
        ensures { result ≡ with_number text.now self n }
    {
        let word = read(text, self.next);
        Record {
            agrees: self.agrees & (word.size == n),
            next: word.next,
            compared: added(self.compared, 1),
        }
    }

    // The next numbers are these.
    pub fn numbers<T: Number>(self, text: &[u8], ns: &[T]) -> Record
        ensures { result ≡ with_sizes T.size_of text.now self ns.now }
    {
        let mut seen = self;
        for n in ns {
            seen = seen.number(text, n.size());
        }
        seen
    }

    // The next scalar is this one: as many numbers as a cell has words.
    pub fn scalar(self, text: &[u8], s: Scalar) -> Record
        ensures { result ≡ with_scalar text.now self s }
    {
        let recorded = read_scalar(text, self.next);
        let value = recorded.value;
        Record {
            agrees: self.agrees & s.equals(value),
            next: recorded.next,
            compared: added(self.compared, CELL as u64),
        }
    }

    // The next byte is this one; behind the text's end there is none to compare.
    fn byte(self, text: &[u8], b: u8) -> Record
        ensures { result ≡ with_byte text.now self b }
    {
        match text.get(self.next) {
            Some(found) => Record {
                agrees: self.agrees & (*found == b),
                next: self.next + 1,
                compared: added(self.compared, 1),
            },
            None => Record {
                agrees: false,
                ..self
            },
        }
    }

    // The next bytes are these.
    pub fn bytes(self, text: &[u8], bs: &[u8]) -> Record
        ensures { result ≡ with_bytes text.now self bs.now }
    {
        let mut seen = self;
        for b in bs {
            seen = seen.byte(text, *b);
        }
        seen
    }
}
