// What each call answered, held against the record.
// Kept (together): a record that held its text would borrow it, and so would what a case answers; the clauses, which name a text and a record apart, would have the text in each record.
// Kept (kinds): the text has numbers for what a call answered, and these matches write them; nothing reads them back.
ghost use Rattle.std.specs.Prelude.{◌≡◌};
ghost use Rattle.replay.specs.Answers.{with_answer, phase_number, with_phase, with_verdict, with_call, with_effects, finding_numbers, found_left, found_right, with_comparison, with_part};

use crate::record::Record;
use crate::sum::checksum;
use compare::Comparison;
use matrix::Phase;
use scalar::Scalar;
use verdict::{Refusal, Verdict, index, number};

// A scalar call's answer: verdict and value, 0 where it refused.
pub fn check_answer(seen: Record, text: &[u8], a: Result<Scalar, Refusal>) -> Record
    ensures { result ≡ with_answer text.now seen a }
{
    seen.number(text, number(&a) as u64)
        .scalar(text, a.unwrap_or(Scalar::zero()))
}

fn phase_number(a: Result<Phase, Refusal>) -> u64
    ensures { result ≡ phase_number a }
{
    match a {
        Ok(Phase::Equivalent) => 1,
        Ok(Phase::Different) | Err(_) => 0,
    }
}

// The phase test's answer: verdict, and 1 for equivalent.
pub fn check_phase(seen: Record, text: &[u8], a: Result<Phase, Refusal>) -> Record
    ensures { result ≡ with_phase text.now seen a }
{
    seen.number(text, number(&a) as u64)
        .number(text, phase_number(a))
}

// A verdict's number and index.
pub fn check_verdict(seen: Record, text: &[u8], v: Verdict) -> Record
    ensures { result ≡ with_verdict text.now seen v }
{
    let numbers = [number(&v) as u64, index(&v) as u64];
    seen.numbers(text, &numbers)
}

// A circuit's verdict and index, and the checksums of what the call left in both buffers.
pub fn check_call(seen: Record, text: &[u8], v: Verdict, res: &[i64], work: &[i64]) -> Record
    ensures { result ≡ with_call text.now seen v res.now work.now }
{
    let numbers = [
        number(&v) as u64,
        index(&v) as u64,
        checksum(res),
        checksum(work),
    ];
    seen.numbers(text, &numbers)
}

// The verdict of a call on effects, and the checksum of what it left in the result.
pub fn check_effects(seen: Record, text: &[u8], v: Verdict, res: &[i64]) -> Record
    ensures { result ≡ with_effects text.now seen v res.now }
{
    seen.number(text, number(&v) as u64)
        .number(text, checksum(res))
}

// Document 01's verdict; 0 same, 1 dimensions, 2 an entry; the store's two words, row and column of the entry.
fn finding_numbers(answer: Result<Comparison, Refusal>) -> [u64; 6]
    ensures { result ≡ finding_numbers answer }
{
    match answer {
        Err(refusal) => [refusal.number() as u64, 0, 0, 0, 0, 0],
        Ok(Comparison::Same) => [0, 0, 0, 0, 0, 0],
        Ok(Comparison::Dimensions) => [0, 1, 0, 0, 0, 0],
        Ok(Comparison::Differs(d)) => [
            0,
            2,
            d.place.store % 4294967296,
            d.place.store / 4294967296,
            d.place.row as u64,
            d.place.col as u64,
        ],
    }
}

// The left scalar of the entry that differs, or 0.
fn found_left(answer: Result<Comparison, Refusal>) -> Scalar
    ensures { result ≡ found_left answer }
{
    match answer {
        Ok(Comparison::Differs(d)) => d.left,
        _ => Scalar::zero(),
    }
}

// The right one.
// Kept: one function of both scalars would answer a pair, to be taken apart by its one caller.
fn found_right(answer: Result<Comparison, Refusal>) -> Scalar
    ensures { result ≡ found_right answer }
{
    match answer {
        Ok(Comparison::Differs(d)) => d.right,
        _ => Scalar::zero(),
    }
}

// What compare found, then both scalars.
pub fn check_comparison(seen: Record, text: &[u8], answer: Result<Comparison, Refusal>) -> Record
    ensures { result ≡ with_comparison text.now seen answer }
{
    seen.numbers(text, &finding_numbers(answer))
        .scalar(text, found_left(answer))
        .scalar(text, found_right(answer))
}

// The part that the lookup hands back: its length and its checksum.
pub fn check_part(seen: Record, text: &[u8], part: &[i64]) -> Record
    ensures { result ≡ with_part text.now seen part.now }
{
    seen.number(text, part.len() as u64)
        .number(text, checksum(part))
}
