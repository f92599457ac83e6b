// The scalar calls: a scalar is five words, n0 to n3 and e.
// Kept (twins, together): the names and the parameters are those of include/foreituka.h.
ghost use Rattle.std.specs.Prelude.{◌≡◌};
ghost use Rattle.exact.specs.Exact.{exact, imaginary, inv_sqrt_two, omega};
ghost use Rattle.verdict.specs.Verdict.{verdict_number};
ghost use Rattle.scalar.specs.Calls.{accepted, integer_answer, neg_answer, conj_answer, half_answer, add_answer, mul_answer};
ghost use Rattle.c_scalars.specs.Words.{operand};
ghost use Rattle.c_scalars.specs.Calls.{answer_words};

use cells::CELL;

// n
#[unsafe(no_mangle)]
pub extern "C" fn foreituka_scalar_integer(n: i64, out: &mut [i64; CELL]) -> u32
    ensures value { result ≡ verdict_number (integer_answer n) }
    ensures out_after { out.new ≡ answer_words (integer_answer n) }
{
    c_scalars::integer(n, out)
}

// 0
#[unsafe(no_mangle)]
pub extern "C" fn foreituka_scalar_zero(out: &mut [i64; CELL]) -> u32
    ensures value { result ≡ verdict_number (accepted exact.𝟘) }
    ensures out_after { out.new ≡ answer_words (accepted exact.𝟘) }
{
    c_scalars::zero(out)
}

// i
#[unsafe(no_mangle)]
pub extern "C" fn foreituka_scalar_i(out: &mut [i64; CELL]) -> u32
    ensures value { result ≡ verdict_number (accepted imaginary) }
    ensures out_after { out.new ≡ answer_words (accepted imaginary) }
{
    c_scalars::i(out)
}

// √2 / 2
#[unsafe(no_mangle)]
pub extern "C" fn foreituka_scalar_inv_sqrt_two(out: &mut [i64; CELL]) -> u32
    ensures value { result ≡ verdict_number (accepted inv_sqrt_two) }
    ensures out_after { out.new ≡ answer_words (accepted inv_sqrt_two) }
{
    c_scalars::inv_sqrt_two(out)
}

// ((1 + i) / √2)^(k mod 8)
#[unsafe(no_mangle)]
pub extern "C" fn foreituka_scalar_omega(k: u32, out: &mut [i64; CELL]) -> u32
    ensures value { result ≡ verdict_number (accepted (omega k)) }
    ensures out_after { out.new ≡ answer_words (accepted (omega k)) }
{
    c_scalars::omega(k, out)
}

// −x
#[unsafe(no_mangle)]
pub extern "C" fn foreituka_scalar_neg(x: &[i64; CELL], out: &mut [i64; CELL]) -> u32
    ensures value { result ≡ verdict_number (neg_answer (operand x.now)) }
    ensures out_after { out.new ≡ answer_words (neg_answer (operand x.now)) }
{
    c_scalars::neg(x, out)
}

// The conjugate of x.
#[unsafe(no_mangle)]
pub extern "C" fn foreituka_scalar_conj(x: &[i64; CELL], out: &mut [i64; CELL]) -> u32
    ensures value { result ≡ verdict_number (conj_answer (operand x.now)) }
    ensures out_after { out.new ≡ answer_words (conj_answer (operand x.now)) }
{
    c_scalars::conj(x, out)
}

// x / 2
#[unsafe(no_mangle)]
pub extern "C" fn foreituka_scalar_half(x: &[i64; CELL], out: &mut [i64; CELL]) -> u32
    ensures value { result ≡ verdict_number (half_answer (operand x.now)) }
    ensures out_after { out.new ≡ answer_words (half_answer (operand x.now)) }
{
    c_scalars::half(x, out)
}

// x + y
#[unsafe(no_mangle)]
pub extern "C" fn foreituka_scalar_add(
    x: &[i64; CELL],
    y: &[i64; CELL],
    out: &mut [i64; CELL],
) -> u32
    ensures value { result ≡ verdict_number (add_answer (operand x.now) (operand y.now)) }
    ensures out_after { out.new ≡ answer_words (add_answer (operand x.now) (operand y.now)) }
{
    c_scalars::add(x, y, out)
}

// x·y
#[unsafe(no_mangle)]
pub extern "C" fn foreituka_scalar_mul(
    x: &[i64; CELL],
    y: &[i64; CELL],
    out: &mut [i64; CELL],
) -> u32
    ensures value { result ≡ verdict_number (mul_answer (operand x.now) (operand y.now)) }
    ensures out_after { out.new ≡ answer_words (mul_answer (operand x.now) (operand y.now)) }
{
    c_scalars::mul(x, y, out)
}
