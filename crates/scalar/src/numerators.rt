// The lowest form of four numerators over a power of two, and a sum at two powers. No verdicts: a caller shows that all fits.
// Kept (facts): as in exact.
ghost use Rattle.std.specs.Prelude.{◌≡◌, ◌-◌, ◌≤◌};
ghost use Rattle.algebra.specs.Dyadic.{frac};
ghost use Rattle.exact.specs.Exact.{exact, lowest, max_numerator, max_exponent, number_of};
ghost use Rattle.exact.specs.Inner.Sizes.{Within, scaled, room_numerator};
ghost use Rattle.scalar.specs.Calls.{scalar_of};

use super::Scalar;
use exact::numerators::{common_zeros, scaled4, sum4};

// The lowest form of the numerators over 2^e, by one shift.
pub fn reduce(x: [i64; 4], e: u32) -> Scalar
    requires { e ≤ 63 }
    ensures { result ≡ scalar_of (lowest (number_of x) e) }
{
    let [a, b, c, d] = x;
    let k = common_zeros(a, b, c, d).min(e);
    Scalar {
        n: [a >> k, b >> k, c >> k, d >> k],
        e: e - k,
    }
}

// The sum of numerators over 2^e and numerators over 2^f.
pub fn aligned_sum(x: [i64; 4], e: u32, y: [i64; 4], f: u32) -> Scalar
    requires { (e ≤ f) × ((f ≤ max_exponent) × (Within room_numerator (scaled (number_of x) (f - e)) × Within max_numerator (number_of y))) }
    ensures { result ≡ scalar_of (exact.◌⊕◌ (frac (number_of x) e) (frac (number_of y) f)) }
{
    reduce(sum4(scaled4(x, f - e), y), f)
}
