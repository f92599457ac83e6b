// Cases of the scalar calls and of the phase test.
// Kept (buffers): the places in the text are those of crate replay, which says why.
// Kept (kinds, switches): a call's number is read here and nowhere else, and each call is a function of crate scalar.
ghost use Rattle.std.specs.Prelude.{◌≡◌};
ghost use Rattle.replay_cases.specs.Words.{call_of, answered, scalar_case, phase_case};

use matrix::global_phase::equivalent_up_to_global_phase;
use replay::answers::{check_answer, check_phase};
use replay::numeral::{low, read};
use replay::record::Record;
use replay::scalars::read_scalar;
use replay::words::read_words;
use scalar::Scalar;
use verdict::Refusal;

// Room for the words of a matrix.
const MATRIX: usize = 5120;

// A call on scalars.
#[derive(Clone, Copy)]
enum Call {
    Integer,
    Zero,
    Imaginary,
    InvSqrtTwo,
    Omega,
    Add,
    Neg,
    Half,
    Conj,
    Mul,
}

impl From<u64> for Call {
    ghost from_gives = { λ number call. call ≡ call_of number };

    fn from(number: u64) -> Call {
        match number {
            0 => Call::Integer,
            1 => Call::Zero,
            2 => Call::Imaginary,
            3 => Call::InvSqrtTwo,
            4 => Call::Omega,
            5 => Call::Add,
            6 => Call::Neg,
            7 => Call::Half,
            8 => Call::Conj,
            _ => Call::Mul,
        }
    }
}

impl Call {
    // What it answers; `first` is the size of x's first number.
    fn answer(self, first: u64, x: Scalar, y: Scalar) -> Result<Scalar, Refusal>
        ensures { result ≡ answered self first x y }
    {
        match self {
            Call::Integer => Scalar::integer(x.n[0]),
            Call::Zero => Ok(Scalar::zero()),
            Call::Imaginary => Ok(Scalar::i()),
            Call::InvSqrtTwo => Ok(Scalar::inv_sqrt_two()),
            Call::Omega => Ok(Scalar::omega(low(first))),
            Call::Add => x.add(y),
            Call::Neg => x.neg(),
            Call::Half => x.half(),
            Call::Conj => x.conj(),
            Call::Mul => x.mul(y),
        }
    }
}

// Call and two operands; verdict and value.
#[tactic(auto, unfolding(crate::specs::Words::scalar_case))]
#[inline(never)]
pub fn scalar_case(text: &[u8], at: usize) -> Record
    ensures { result ≡ scalar_case text.now at }
{
    let call = read(text, at);
    let first = read(text, call.next);
    let x = read_scalar(text, call.next);
    let y = read_scalar(text, x.next);
    let a = Call::from(call.size).answer(first.size, x.value, y.value);
    check_answer(Record::begin(y.next), text, a)
}

// Two matrices, each its dim and its words; verdict, and 1 for equivalent.
#[inline(never)]
pub fn phase_case(text: &[u8], at: usize) -> Record
    ensures { result ≡ phase_case text.now at }
{
    let mut left_room = [0i64; MATRIX];
    let mut right_room = [0i64; MATRIX];
    let d = read(text, at);
    let left = read_words(text, d.next, &mut left_room);
    let e = read(text, left.next);
    let right = read_words(text, e.next, &mut right_room);
    let a = equivalent_up_to_global_phase(
        d.size as usize,
        left.words,
        e.size as usize,
        right.words,
    );
    check_phase(Record::begin(right.next), text, a)
}
