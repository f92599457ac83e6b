// equivalent_up_to_global_phase.
// Kept (together): the names and the parameters are those of include/foreituka.h.
ghost use Rattle.std.specs.Prelude.{◌≡◌};
ghost use Rattle.matrix.specs.Phase.{phase_answer};
ghost use Rattle.c_scalars.specs.Matrices.{phase_number};

// Whether two matrices of left_dim and right_dim rows are equal up to a number of modulus 1.
#[unsafe(no_mangle)]
pub extern "C" fn foreituka_equivalent_up_to_global_phase(
    left_dim: usize,
    left: &[i64],
    right_dim: usize,
    right: &[i64],
) -> u32
    ensures { result ≡ phase_number (phase_answer left_dim left.now right_dim right.now) }
{
    c_scalars::matrices::equivalent_up_to_global_phase(left_dim, left, right_dim, right)
}
