// The scalar calls of the C interface: a scalar is five words, n0 to n3 and e. Each writes the scalar that it answers with, and zero where it refuses; its reply is the verdict's number.
// Kept (together): the parameters are those of the C interface.
#![tactic(auto)]

ghost use Rattle.std.specs.Prelude.{◌≡◌};
ghost use Rattle.exact.specs.Exact.{exact, imaginary, inv_sqrt_two, omega};
ghost use Rattle.verdict.specs.Verdict.{verdict_number};
ghost use Rattle.scalar.specs.Calls.{accepted, integer_answer, neg_answer, conj_answer, half_answer, add_answer, mul_answer};
ghost use Rattle.c_scalars.specs.Words.{operand};
ghost use Rattle.c_scalars.specs.Calls.{answer_words};

pub mod matrices;
pub mod words;

use crate::words::{read_operand, scalar_words};
use cells::CELL;
use scalar::{Scalar, ZERO};
use verdict::Refusal;

// Write an answer's scalar, or zero for a refusal; the number of its verdict.
fn answer(a: Result<Scalar, Refusal>, out: &mut [i64; CELL]) -> u32
    ensures value { result ≡ verdict_number a }
    ensures out_after { out.new ≡ answer_words a }
{
    *out = scalar_words(a.unwrap_or(ZERO));
    verdict::number(&a)
}

// n
pub fn integer(n: i64, out: &mut [i64; CELL]) -> u32
    ensures value { result ≡ verdict_number (integer_answer n) }
    ensures out_after { out.new ≡ answer_words (integer_answer n) }
{
    answer(Scalar::integer(n), out)
}

// 0
pub fn zero(out: &mut [i64; CELL]) -> u32
    ensures value { result ≡ verdict_number (accepted exact.𝟘) }
    ensures out_after { out.new ≡ answer_words (accepted exact.𝟘) }
{
    answer(Ok(Scalar::zero()), out)
}

// i
pub fn i(out: &mut [i64; CELL]) -> u32
    ensures value { result ≡ verdict_number (accepted imaginary) }
    ensures out_after { out.new ≡ answer_words (accepted imaginary) }
{
    answer(Ok(Scalar::i()), out)
}

// √2 / 2
pub fn inv_sqrt_two(out: &mut [i64; CELL]) -> u32
    ensures value { result ≡ verdict_number (accepted inv_sqrt_two) }
    ensures out_after { out.new ≡ answer_words (accepted inv_sqrt_two) }
{
    answer(Ok(Scalar::inv_sqrt_two()), out)
}

// ((1 + i) / √2)^(k mod 8)
pub fn omega(k: u32, out: &mut [i64; CELL]) -> u32
    ensures value { result ≡ verdict_number (accepted (omega k)) }
    ensures out_after { out.new ≡ answer_words (accepted (omega k)) }
{
    answer(Ok(Scalar::omega(k)), out)
}

// −x
pub fn neg(x: &[i64; CELL], out: &mut [i64; CELL]) -> u32
    ensures value { result ≡ verdict_number (neg_answer (operand x.now)) }
    ensures out_after { out.new ≡ answer_words (neg_answer (operand x.now)) }
{
    answer(read_operand(x).neg(), out)
}

// The conjugate of x.
pub fn conj(x: &[i64; CELL], out: &mut [i64; CELL]) -> u32
    ensures value { result ≡ verdict_number (conj_answer (operand x.now)) }
    ensures out_after { out.new ≡ answer_words (conj_answer (operand x.now)) }
{
    answer(read_operand(x).conj(), out)
}

// x / 2
pub fn half(x: &[i64; CELL], out: &mut [i64; CELL]) -> u32
    ensures value { result ≡ verdict_number (half_answer (operand x.now)) }
    ensures out_after { out.new ≡ answer_words (half_answer (operand x.now)) }
{
    answer(read_operand(x).half(), out)
}

// x + y
pub fn add(x: &[i64; CELL], y: &[i64; CELL], out: &mut [i64; CELL]) -> u32
    ensures value { result ≡ verdict_number (add_answer (operand x.now) (operand y.now)) }
    ensures out_after { out.new ≡ answer_words (add_answer (operand x.now) (operand y.now)) }
{
    answer(read_operand(x).add(read_operand(y)), out)
}

// x·y
pub fn mul(x: &[i64; CELL], y: &[i64; CELL], out: &mut [i64; CELL]) -> u32
    ensures value { result ≡ verdict_number (mul_answer (operand x.now) (operand y.now)) }
    ensures out_after { out.new ≡ answer_words (mul_answer (operand x.now) (operand y.now)) }
{
    answer(read_operand(x).mul(read_operand(y)), out)
}
