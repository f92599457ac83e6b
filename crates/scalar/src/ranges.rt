// Ranges and lowest forms: the questions that are asked of scalars.
ghost use Rattle.std.specs.Prelude.{◌≡◌, ◌&&◌};
ghost use Rattle.exact.specs.Exact.{exact, in_range, is_lowest, well_formed, narrow, is_zero, equal};
ghost use Rattle.scalar.specs.Calls.{value};

use super::{ONE, Scalar};
use exact::ranges::{all_even, all_zero, are_within};
use exact::{MAX_EXPONENT, MAX_NUMERATOR, NARROW_EXPONENT, NARROW_NUMERATOR};

impl Scalar {
    // Kept (twins): `in_range` and `is_narrow` are the two bounds of the specification, a line each.
    pub fn in_range(self) -> bool
        ensures { result ≡ in_range (value self) }
    {
        are_within(self.n, MAX_NUMERATOR) & (self.e <= MAX_EXPONENT)
    }

    pub fn is_narrow(self) -> bool
        ensures { result ≡ narrow (value self) }
    {
        are_within(self.n, NARROW_NUMERATOR) & (self.e <= NARROW_EXPONENT)
    }

    // Whether e is 0 or some numerator is odd.
    pub fn is_lowest(self) -> bool
        ensures { result ≡ is_lowest (value self) }
    {
        (self.e == 0) | !all_even(self.n)
    }

    pub fn is_well_formed(self) -> bool
        ensures { result ≡ well_formed (value self) }
    {
        self.in_range() & self.is_lowest()
    }

    // Kept: a name for `==`. The derive tells `==` field by field; here it is told in the word of the specification, `equal`, once for all callers.
    // Whether both are the same number: lowest forms are unique.
    pub fn equals(self, other: Scalar) -> bool
        ensures { result ≡ equal (value self) (value other) }
    {
        self == other
    }

    pub fn is_zero(self) -> bool
        ensures { result ≡ is_zero (value self).num }
    {
        all_zero(self.n)
    }

    pub fn is_one(self) -> bool
        ensures { result ≡ equal (value self) exact.𝟙 }
    {
        self.equals(ONE)
    }
}

pub fn are_well_formed(x: Scalar, y: Scalar) -> bool
    ensures { result ≡ (well_formed (value x) && well_formed (value y)) }
{
    x.is_well_formed() & y.is_well_formed()
}

pub fn are_narrow(x: Scalar, y: Scalar) -> bool
    ensures { result ≡ (narrow (value x) && narrow (value y)) }
{
    x.is_narrow() & y.is_narrow()
}
