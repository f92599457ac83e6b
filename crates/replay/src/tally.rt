// What a replay counts and prints.
ghost use Rattle.std.specs.Prelude.{◌≡◌, ◌↔◌, IsTrue, Some};
ghost use Rattle.replay.specs.Tally.{first_of, with_case, counts_text, first_text, tally_text};
ghost use Rattle.std.specs.Fmt.{DisplaysOnOk};

use crate::count::{added, counted};
use crate::record::{Record, Source};
use std::fmt;

// All cases; those that agree, by where the record comes from; those that do not, and the number of the first of these, from 1; the numbers compared.
// Kept: `first` is 0 while `disagree` is, which is asked before it is printed; with an Option both would say whether a case disagrees.
#[derive(Clone, Copy, Default)]
pub struct Tally {
    cases: u64,
    of_rust: u64,
    of_document: u64,
    disagree: u64,
    first: u64,
    compared: u64,
}

// The number of the first case that does not agree, or 0: the first one before, or this case.
fn first_of(before: u64, case: u64, agrees: bool) -> u64
    ensures { result ≡ first_of before case agrees }
{
    if agrees | (0 < before) { before } else { case }
}

impl Tally {
    // No case was counted.
    pub fn is_empty(self) -> bool
        ensures { IsTrue result ↔ (self.cases ≡ 0) }
    {
        self.cases == 0
    }

    // With one more case, whose record comes from this source.
    pub fn with(self, seen: Record, source: Source) -> Tally
        ensures { result ≡ with_case self seen source }
    {
        let agrees = seen.agrees();
        let rust = source.is_rust();
        let cases = counted(self.cases, true);
        Tally {
            cases,
            of_rust: counted(self.of_rust, agrees & rust),
            of_document: counted(self.of_document, agrees & !rust),
            disagree: counted(self.disagree, !agrees),
            first: first_of(self.first, cases, agrees),
            compared: added(self.compared, seen.compared()),
        }
    }
}

// The line of the counts, without its end.
fn write_counts<W: fmt::Write>(t: &Tally, f: &mut fmt::Formatter<W>) -> fmt::Result
    ensures { DisplaysOnOk W.write_str_gives f.old result (Some (counts_text t.now)) f.new }
{
    let Tally {
        of_rust,
        of_document,
        disagree,
        compared,
        ..
    } = *t;
    write!(
        f,
        "{of_rust} agree with the Rust, {of_document} with the documents, {disagree} disagree; {compared} numbers compared"
    )
}

// The line of the first case that does not agree, behind the end of the one before.
fn write_first<W: fmt::Write>(t: &Tally, f: &mut fmt::Formatter<W>) -> fmt::Result
    ensures { DisplaysOnOk W.write_str_gives f.old result (Some (first_text t.now)) f.new }
{
    let first = t.first;
    write!(f, "\nthe first is case {first}")
}

// The counts; a second line names the first case that does not agree, if one does not.
impl fmt::Display for Tally {
    ghost output = { λ t. Some (tally_text t) };

    fn fmt<W: fmt::Write>(&self, f: &mut fmt::Formatter<W>) -> fmt::Result {
        write_counts(self, f)?;
        if self.disagree == 0 {
            return Ok(());
        }
        write_first(self, f)
    }
}
