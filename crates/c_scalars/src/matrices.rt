// The calls of the C interface on matrices.
// Kept (together): the parameters are those of the C interface.
ghost use Rattle.std.specs.Prelude.{◌≡◌};
ghost use Rattle.matrix.specs.Phase.{phase_answer};
ghost use Rattle.c_scalars.specs.Matrices.{found_number, phase_number};

use crate::words::replies::{DIFFERENT, EQUIVALENT};
use matrix::Phase;
use verdict::Refusal;

fn found_number(p: Phase) -> u32
    ensures { result ≡ found_number p }
{
    match p {
        Phase::Equivalent => EQUIVALENT,
        Phase::Different => DIFFERENT,
    }
}

fn phase_number(a: Result<Phase, Refusal>) -> u32
    ensures { result ≡ phase_number a }
{
    match a {
        Ok(p) => found_number(p),
        Err(r) => r.number(),
    }
}

// Whether two matrices of left_dim and right_dim rows are equal up to a number of modulus 1.
pub fn equivalent_up_to_global_phase(
    left_dim: usize,
    left: &[i64],
    right_dim: usize,
    right: &[i64],
) -> u32
    ensures { result ≡ phase_number (phase_answer left_dim left.now right_dim right.now) }
{
    let a = matrix::global_phase::equivalent_up_to_global_phase(left_dim, left, right_dim, right);
    phase_number(a)
}
