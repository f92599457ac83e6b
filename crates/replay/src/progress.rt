// A replay under way: cases one after the other, counted by kind.
// Kept (kinds): a kind is printed as the text has it, also where no case has that number; `Cases::of` turns it into the program's own type of cases, once for each case.
// Kept (buffers): a place in the text, as in words.rt.
// Kept (twins): `of` and `replay` of `Cases` are heads alone, whose bodies are the programs'.
ghost use Rattle.std.specs.Prelude.{◌≡◌, List, ℕ, Some, length, take, IfOk, IfSome};
ghost use Rattle.replay.specs.declared.record.Record.{Record};
ghost use Rattle.replay.specs.Tally.{none};
ghost use Rattle.replay.specs.Progress.{heading_at, progress_of, tally_for, with_turn, with_next, replay_of, lines_of};

use crate::input::read_full;
use crate::numeral::read;
use crate::record::{Record, Source};
use crate::tally::Tally;
use std::fmt;
use std::io::{self, Read};

// The cases of a program.
pub trait Cases {
    // The case of a kind.
    ghost case_of: { ℕ → Self };

    // What a case records that is given what stands at this place of the text.
    ghost record_of: { Self → List ℕ → ℕ → Record };

    fn of(kind: u64) -> Self
        ensures { result ≡ case_of kind };

    // Makes the case's calls on what stands behind its heading, and holds their answers against the record.
    fn replay(self, text: &[u8], at: usize) -> Record
        ensures { result ≡ record_of self text.now at };
}

// How a case begins: its kind, where its record comes from, and where what it is given begins.
#[derive(Clone, Copy)]
pub struct Heading {
    pub kind: u64,
    pub source: Source,
    pub next: usize,
}

pub fn read_heading(text: &[u8], at: usize) -> Heading
    ensures { result ≡ heading_at text.now at }
{
    let kind = read(text, at);
    let source = read(text, kind.next);
    Heading {
        kind: kind.size,
        source: Source::from(source.size),
        next: source.next,
    }
}

// The kind of the last case, what was counted of its kind, and where the next case begins.
// Kept: before the first case the kind is 0 and the tally is empty, of which nothing is printed, whatever the kind; an Option would be asked where nothing depends on it.
#[derive(Clone, Copy)]
pub struct Progress {
    kind: u64,
    tally: Tally,
    next: usize,
}

impl Progress {
    pub fn begin(at: usize) -> Progress
        ensures { result ≡ progress_of 0 none at }
    {
        let tally = Tally::default();
        Progress {
            kind: 0,
            tally,
            next: at,
        }
    }

    // Where the next case begins.
    pub fn next(self) -> usize
        ensures { result ≡ self.next }
    {
        self.next
    }

    // Prints what was counted of the last kind, where the case that comes next is of another.
    fn print_before(self, rt: &impl Print, after: Progress) -> io::Result<()> {
        if after.kind == self.kind {
            return Ok(());
        }
        rt.print(self)
    }

    // What was counted of this kind: nothing, where it is another than the last.
    fn tally_for(self, kind: u64) -> Tally
        ensures { result ≡ tally_for self kind }
    {
        if kind == self.kind {
            return self.tally;
        }
        Tally::default()
    }

    // With one more case.
    pub fn with(self, h: Heading, seen: Record) -> Progress
        ensures { result ≡ with_turn self h seen }
    {
        let tally = self.tally_for(h.kind).with(seen, h.source);
        Progress {
            kind: h.kind,
            tally,
            next: seen.next(),
        }
    }

    // With the case that comes next.
    fn turn<C: Cases>(self, text: &[u8]) -> Progress
        ensures { result ≡ with_next (λ kind. C.record_of (C.case_of kind)) text.now self }
    {
        let h = read_heading(text, self.next);
        let seen = C::of(h.kind).replay(text, h.next);
        self.with(h, seen)
    }
}

// What was counted of the last kind, if anything was.
impl fmt::Display for Progress {
    ghost output = { λ p. Some (lines_of p) };

    fn fmt<W: fmt::Write>(&self, f: &mut fmt::Formatter<W>) -> fmt::Result {
        let kind = self.kind;
        let tally = self.tally;
        if tally.is_empty() {
            return Ok(());
        }
        write!(f, "kind {kind}: {tally}\n")
    }
}

// All cases, and whether each line could be written. A line that could not be keeps none of the others back.
pub fn replayed<C: Cases>(rt: &impl Print, text: &[u8]) -> (Progress, io::Result<()>)
    ensures { result.0 ≡ replay_of (λ kind. C.record_of (C.case_of kind)) text.now }
{
    let count = read(text, 0);
    let mut progress = Progress::begin(count.next);
    let mut written = Ok(());
    for _i in 0..count.size {
        let after = progress.turn::<C>(text);
        written = written.and(progress.print_before(rt, after));
        progress = after;
    }
    (progress, written)
}

// Reads a text for which there is this room, to its end, replays it, and prints what was counted. Answers where the replay ended.
pub fn replay_input<C: Cases, R: Read>(
    rt: &impl Print,
    input: &mut R,
    text: &mut [u8],
) -> io::Result<Progress>
    ensures { IfOk result (λ p. IfSome (R.remaining input.old) (λ xs. p ≡ replay_of (λ kind. C.record_of (C.case_of kind)) (take (length text.old) xs))) }
{
    let n = read_full(input, text)?;
    let (progress, written) = replayed::<C>(rt, &text[..n]);
    written.and(rt.print(progress))?;
    Ok(progress)
}
