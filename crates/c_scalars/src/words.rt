// What the calls of the C interface share: replies, scalars as five words, and a verdict's number with its index.
// Kept (by-hand): five words with a bad exponent read as too high are the C interface's, of which crate scalar knows nothing; From could stand there alone, since neither arrays nor Scalar are types of this crate.
ghost use Rattle.std.specs.Prelude.{◌≡◌};
ghost use Rattle.scalar.specs.Calls.{value, scalar_of};
ghost use Rattle.cells.specs.Cells.{cell_words};
ghost use Rattle.verdict.specs.Verdict.{verdict_number, verdict_index};
ghost use Rattle.c_scalars.specs.Words.{exponent_of, operand};

use cells::{CELL, write_cell};
use exact::MAX_EXPONENT;
use scalar::Scalar;
use verdict::Refusal;

pub mod replies;

// Kept: the calls of `scalar` refuse such an exponent themselves; and C's `number_text` refuses nothing; an Option here would be a second place of that refusal, and unwrapped there.
// A word that is no exponent is read as one above the highest.
fn read_exponent(e: i64) -> u32
    ensures { result ≡ exponent_of e }
{
    if (0..=i64::from(MAX_EXPONENT)).contains(&e) {
        e as u32
    } else {
        MAX_EXPONENT + 1
    }
}

pub fn read_operand(x: &[i64; CELL]) -> Scalar
    ensures { result ≡ scalar_of (operand x.now) }
{
    let [a, b, c, d, e] = *x;
    Scalar {
        n: [a, b, c, d],
        e: read_exponent(e),
    }
}

pub fn scalar_words(s: Scalar) -> [i64; CELL]
    ensures { result ≡ cell_words (value s) }
{
    let mut words = [0; CELL];
    write_cell(&mut words, 0, s);
    words
}

// Write the index of an answer's refusal; its number. Both are 0 where the call was accepted.
pub fn report<T>(answer: &Result<T, Refusal>, index: &mut u64) -> u32
    ensures value { result ≡ verdict_number answer.now }
    ensures index_after { index.new ≡ verdict_index answer.now }
{
    *index = verdict::index(answer) as u64;
    verdict::number(answer)
}
