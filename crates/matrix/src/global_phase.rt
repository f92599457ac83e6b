// Equality up to a global phase.
// Kept (buffers): n is how many entries the dimension says, with which the length of the words is compared; behind that question it spares a division.
// Kept (facts): that a number is no larger than an entry of a matrix: a type that says so would be a second scalar, as in products.
// Kept (together): each matrix is words with the dimension that a caller claims for them; whether both belong together is the first question of this call.
ghost use Rattle.std.specs.Prelude.{◌≡◌, true, ℕ, ◌*◌, ◌<◌, ◌≤◌, length};
ghost use Rattle.algebra.specs.Lists.{all_below};
ghost use Rattle.exact.specs.Exact.{conj, narrow};
ghost use Rattle.scalar.specs.Calls.{value, scalar_of};
ghost use Rattle.cells.specs.Cells.{well_formed_at, cell_size};
ghost use Rattle.matrix.specs.Phase.{◌·◌, is_dim, entry_of, well_formed_matrix, equal_ratios, in_phase_at, in_phase, phase_of, phase_answer};
ghost use Rattle.matrix.specs.Inner.Operands.{Operand, Operands};

use super::Phase;
use super::words::{first_nonzero, is_zero};
use cells::{CELL, read_cell, well_formed_at};
use scalar::Scalar;
use verdict::Refusal;

// ---- the questions
fn is_dim(d: usize) -> bool
    ensures { result ≡ is_dim d }
{
    matches!(d, 1 | 2 | 4 | 8 | 16 | 32)
}

fn all_well_formed(s: &[i64], n: usize) -> bool
    requires { n * cell_size ≤ length s.now }
    ensures { result ≡ all_below n (λ (i : ℕ). well_formed_at s.now (i * cell_size)) }
{
    (0..n).all(|i| well_formed_at(s, i * CELL))
}

// Whether the words are a matrix of d rows and columns, every entry in range and in lowest form.
fn is_matrix(d: usize, s: &[i64]) -> bool
    ensures { result ≡ well_formed_matrix d s.now }
{
    if !is_dim(d) {
        return false;
    }
    if s.len() != d * d * CELL {
        return false;
    }
    all_well_formed(s, d * d)
}

fn all_narrow(s: &[i64], n: usize) -> bool
    requires { (n * cell_size ≤ length s.now) × (all_below n (λ (i : ℕ). well_formed_at s.now (i * cell_size)) ≡ true) }
    ensures { result ≡ all_below n (λ (i : ℕ). narrow (entry_of s.now i)) }
{
    (0..n).all(|i| read_cell(s, i * CELL).is_narrow())
}

// ---- the rule
#[tactic(auto, using(crate::proofs::Operands::mul_value))]
fn times(x: Scalar, y: Scalar) -> Scalar
    requires { Operand (value x) × Operand (value y) }
    ensures { result ≡ scalar_of (value x · value y) }
{
    x.mul(y).unwrap()
}

// x times its conjugate
fn squared_modulus(x: Scalar) -> Scalar
    requires { Operand (value x) }
    ensures { result ≡ scalar_of (value x · conj (value x)) }
{
    times(x, x.conj().unwrap())
}

// The n entries of each of two matrices, well formed and narrow, so that they can be multiplied.
#[derive(Clone, Copy)]
struct Pair<'a> {
    left: &'a [i64],
    right: &'a [i64],
    n: usize,
    ghost left_operands: { Operands left.now n },
    ghost right_operands: { Operands right.now n },
}

impl<'a> Pair<'a> {
    // Whether each entry of the left matrix is in the ratio of a to b to that of the right one.
    fn ratios_same(self, a: Scalar, b: Scalar) -> bool
        requires { Operand (value a) × Operand (value b) }
        ensures { let p = self.entry in result ≡ equal_ratios p.n (entry_of p.left.now) (entry_of p.right.now) (value a) (value b) }
    {
        for j in 0..self.n {
            let x = read_cell(self.left, j * CELL);
            let y = read_cell(self.right, j * CELL);
            if !times(x, b).equals(times(y, a)) {
                return false;
            }
        }
        true
    }

    // Whether the rule holds with entry i as the pivot.
    fn in_phase_at(self, i: usize) -> bool
        requires { i < self.n }
        ensures { let p = self.entry in result ≡ in_phase_at p.n (entry_of p.left.now) (entry_of p.right.now) i }
    {
        let a = read_cell(self.left, i * CELL);
        let b = read_cell(self.right, i * CELL);
        let p = squared_modulus(a);
        let q = squared_modulus(b);
        if !p.equals(q) {
            return false;
        }
        self.ratios_same(a, b)
    }

    // Whether the rule holds.
    fn in_phase(self) -> bool
        ensures { let p = self.entry in result ≡ in_phase p.n (entry_of p.left.now) (entry_of p.right.now) }
    {
        match first_nonzero(self.left, 0, self.n, 0) {
            Some(i) => self.in_phase_at(i),
            None => is_zero(self.right, 0, self.n),
        }
    }
}

// ---- the answer
// Kept: a bool says nothing of phases by itself; a `From<bool>` would hide which answer is which.
fn phase_of(b: bool) -> Phase
    ensures { result ≡ phase_of b }
{
    if b {
        Phase::Equivalent
    } else {
        Phase::Different
    }
}

// Whether right = u·left for some number u of modulus 1.
pub fn equivalent_up_to_global_phase(
    left_dim: usize,
    left: &[i64],
    right_dim: usize,
    right: &[i64],
) -> Result<Phase, Refusal>
    ensures { result ≡ phase_answer left_dim left.now right_dim right.now }
{
    let formed = is_matrix(left_dim, left) & is_matrix(right_dim, right);
    if !formed {
        return Err(Refusal::Malformed);
    }
    if left_dim != right_dim {
        return Ok(Phase::Different);
    }
    let n = left_dim * left_dim;
    let narrow = all_narrow(left, n) & all_narrow(right, n);
    if !narrow {
        return Err(Refusal::TooLarge);
    }
    let pair = Pair { left, right, n };
    Ok(phase_of(pair.in_phase()))
}
