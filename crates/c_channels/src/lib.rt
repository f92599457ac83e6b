// The calls of the C interface on channels.
#![tactic(auto)]

ghost use Rattle.std.specs.Prelude.{◌≡◌};
ghost use Rattle.verdict.specs.Verdict.{verdict_number};
ghost use Rattle.compare.specs.Compare.{compare_of};
ghost use Rattle.channel.specs.Lookup.{lookup_of, span_of};
ghost use Rattle.effects.specs.Effects.{effects_verdict, result_of, povm_of};
ghost use Rattle.c_channels.specs.Channels.{finding_number, difference, place_words, two_scalars, scalar_words, start_of};

pub mod forms;

use c_scalars::words::replies::{DIMENSIONS, ENTRY, SAME};
use cells::{CELL, write_cell};
use channel::lookup::locate;
use compare::{Comparison, Difference};
use scalar::{Scalar, ZERO};
use verdict::Refusal;

// The reply for what a comparison found, or the refusal's number.
pub fn finding_number(answer: &Result<Comparison, Refusal>) -> u32
    ensures { result ≡ finding_number answer.now }
{
    match answer {
        Ok(Comparison::Same) => SAME,
        Ok(Comparison::Dimensions) => DIMENSIONS,
        Ok(Comparison::Differs(_)) => ENTRY,
        Err(refusal) => refusal.number(),
    }
}

// The entry that differs, if one does.
pub fn difference(answer: &Result<Comparison, Refusal>) -> Option<Difference>
    ensures { result ≡ difference answer.now }
{
    match answer {
        Ok(Comparison::Differs(d)) => Some(*d),
        _ => None,
    }
}

// The store, row and column of an entry that differs; zero where none does.
pub fn place_words(entry: Option<Difference>) -> [u64; 3]
    ensures { result ≡ place_words entry }
{
    match entry {
        Some(d) => [d.place.store, d.place.row as u64, d.place.col as u64],
        None => [0; 3],
    }
}

// The words of two scalars.
pub fn two_scalars(x: Scalar, y: Scalar) -> [i64; 2 * CELL]
    ensures { result ≡ two_scalars x y }
{
    let mut words = [0; 2 * CELL];
    write_cell(&mut words, 0, x);
    write_cell(&mut words, CELL, y);
    words
}

// The words of the two scalars of an entry that differs; those of zero where none does.
pub fn scalar_words(entry: Option<Difference>) -> [i64; 2 * CELL]
    ensures { result ≡ scalar_words entry }
{
    match entry {
        Some(d) => two_scalars(d.left, d.right),
        None => two_scalars(ZERO, ZERO),
    }
}

// Compare two channels: what was found, the store, row and column of the first unequal entry in `place`, and its two scalars in `scalars`.
pub fn compare(
    left: &[i64],
    right: &[i64],
    place: &mut [u64; 3],
    scalars: &mut [i64; 2 * CELL],
) -> u32
    ensures value { result ≡ finding_number (compare_of left.now right.now) }
    ensures place_after { place.new ≡ place_words (difference (compare_of left.now right.now)) }
    ensures scalars_after { scalars.new ≡ scalar_words (difference (compare_of left.now right.now)) }
{
    let answer = compare::compare(left, right);
    let entry = difference(&answer);
    *place = place_words(entry);
    *scalars = scalar_words(entry);
    finding_number(&answer)
}

// The transposed effects of a channel's blocks: the verdict's number.
pub fn classical_blocks(channel: &[i64], res: &mut [i64]) -> u32
    ensures value { result ≡ verdict_number (effects_verdict channel.now res.old) }
    ensures res_after { res.new ≡ result_of channel.now res.old }
{
    verdict::number(&effects::classical_blocks(channel, res))
}

// The effects of a channel's blocks as the textbook has them: the verdict's number.
pub fn povm_effects(channel: &[i64], res: &mut [i64]) -> u32
    ensures value { result ≡ verdict_number (effects_verdict channel.now res.old) }
    ensures res_after { res.new ≡ povm_of channel.now res.old }
{
    verdict::number(&effects::povm_effects(channel, res))
}

// Kept: 0 for none is the C interface's; `locate` of channel answers an Option.
// The index of a store's block, its exponent and then its numerators, or 0 where there is none.
pub fn lookup(channel: &[i64], store: &[u8]) -> usize
    ensures { result ≡ start_of (span_of channel.now (lookup_of channel.now store.now)) }
{
    match locate(channel, store) {
        Some(p) => p.start,
        None => 0,
    }
}
