// Exact scalars and their calls. A call that can fail hands back a scalar or a refusal.
#![tactic(auto)]

ghost use Rattle.std.specs.Prelude.{◌≡◌, true, ◌≤◌, Ok};
ghost use Rattle.exact.specs.Exact.{exact, imaginary, inv_sqrt_two, omega, well_formed};
ghost use Rattle.scalar.specs.Calls.{value, scalar_of, fitting, integer_answer, neg_answer, conj_answer, half_answer, add_answer, mul_answer};
ghost use Rattle.scalar.specs.Inner.Fitting.{fitting_scalar};

pub mod numerators;
pub mod powers;
pub mod ranges;

use exact::numerators::{conj4, neg4, product};
use exact::ranges::can_scale;
use numerators::{aligned_sum, reduce};
use powers::power;
use ranges::{are_narrow, are_well_formed};
use verdict::Refusal;

// (n[0] + n[1]·√2 + n[2]·i + n[3]·i·√2) / 2^e
#[derive(Clone, Copy, PartialEq, Eq)]
pub struct Scalar {
    pub n: [i64; 4],
    pub e: u32,
}

pub const ZERO: Scalar = Scalar { n: [0; 4], e: 0 };

pub const ONE: Scalar = Scalar {
    n: [1, 0, 0, 0],
    e: 0,
};

// The scalar if it is in range, else 9.
pub fn checked(s: Scalar) -> Result<Scalar, Refusal>
    ensures { result ≡ fitting_scalar s }
{
    if s.in_range() {
        Ok(s)
    } else {
        Err(Refusal::TooLarge)
    }
}

// The sum of two scalars, the first over the smaller power of two. Scaled, its numerators may be too large for a word: then so is the sum.
fn add_ordered(low: Scalar, high: Scalar) -> Result<Scalar, Refusal>
    requires { (well_formed (value low) ≡ true) × ((well_formed (value high) ≡ true) × (low.e ≤ high.e)) }
    ensures { result ≡ fitting (exact.◌⊕◌ (value low) (value high)) }
{
    if !can_scale(low.n, high.e - low.e) {
        return Err(Refusal::TooLarge);
    }
    checked(aligned_sum(low.n, low.e, high.n, high.e))
}

impl Scalar {
    pub fn integer(n: i64) -> Result<Scalar, Refusal>
        ensures { result ≡ integer_answer n }
    {
        checked(Scalar {
            n: [n, 0, 0, 0],
            e: 0,
        })
    }

    pub fn zero() -> Scalar
        ensures { result ≡ scalar_of exact.𝟘 }
    {
        ZERO
    }

    pub fn i() -> Scalar
        ensures { result ≡ scalar_of imaginary }
    {
        Scalar {
            n: [0, 0, 1, 0],
            e: 0,
        }
    }

    // √2 / 2
    pub fn inv_sqrt_two() -> Scalar
        ensures { result ≡ scalar_of inv_sqrt_two }
    {
        Scalar {
            n: [0, 1, 0, 0],
            e: 1,
        }
    }

    // ((1 + i) / √2)^(k mod 8)
    pub fn omega(k: u32) -> Scalar
        ensures { result ≡ scalar_of (omega k) }
    {
        power(k)
    }

    pub fn add(self, other: Scalar) -> Result<Scalar, Refusal>
        ensures { result ≡ add_answer (value self) (value other) }
    {
        if !are_well_formed(self, other) {
            return Err(Refusal::Malformed);
        }
        if self.e <= other.e {
            add_ordered(self, other)
        } else {
            add_ordered(other, self)
        }
    }

    // Kept (twins): `neg` and `conj` ask one question and make one call each; a method that is given `neg4` or `conj4` would ask for what they promise, in more lines than it spares.
    pub fn neg(self) -> Result<Scalar, Refusal>
        ensures { result ≡ neg_answer (value self) }
    {
        if !self.is_well_formed() {
            return Err(Refusal::Malformed);
        }
        Ok(Scalar {
            n: neg4(self.n),
            e: self.e,
        })
    }

    // n0 + n1·√2 − n2·i − n3·i·√2
    pub fn conj(self) -> Result<Scalar, Refusal>
        ensures { result ≡ conj_answer (value self) }
    {
        if !self.is_well_formed() {
            return Err(Refusal::Malformed);
        }
        Ok(Scalar {
            n: conj4(self.n),
            e: self.e,
        })
    }

    pub fn half(self) -> Result<Scalar, Refusal>
        ensures { result ≡ half_answer (value self) }
    {
        if !self.is_well_formed() {
            return Err(Refusal::Malformed);
        }
        checked(reduce(self.n, self.e + 1))
    }

    pub fn mul(self, other: Scalar) -> Result<Scalar, Refusal>
        ensures { result ≡ mul_answer (value self) (value other) }
    {
        if !are_well_formed(self, other) {
            return Err(Refusal::Malformed);
        }
        if !are_narrow(self, other) {
            return Err(Refusal::TooLarge);
        }
        Ok(reduce(product(self.n, other.n), self.e + other.e))
    }
}
