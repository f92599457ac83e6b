// Four numerators: their sums, products and multiples, and the zeros that end all of them. No verdicts: a caller shows that all fits.
// Kept (facts): a range is asked of each operand where a product, a sum or a sign could leave it; a type of numerators in range would have to be left for each sum and entered again.
ghost use Rattle.std.specs.Prelude.{◌≡◌, ◌%◌, ◌≤◌, ◌^◌};
ghost use Rattle.std.specs.Int.Bits.{bit_or};
ghost use Rattle.std.specs.Int.Count.{count_trailing_zeros};
ghost use Rattle.std.specs.Int.{w64};
ghost use Rattle.std.proofs.Common.{of_z};
ghost use Rattle.algebra.specs.Quadratic.{conjugate};
ghost use Rattle.exact.specs.Exact.{root2, numbers, max_numerator, max_exponent, narrow_numerator, number_of, list_of};
ghost use Rattle.exact.specs.Inner.Sizes.{Within, scaled, room_numerator};

// How many low bits are zero in all four: 64 where no bit below the top one is set.
pub fn common_zeros(a: i64, b: i64, c: i64, d: i64) -> u32
    ensures { result ≡ count_trailing_zeros 64 (bit_or (bit_or (of_z w64 a) (of_z w64 b)) (bit_or (of_z w64 c) (of_z w64 d)) % 2 ^ 63) }
{
    let m = ((a | b) | (c | d)) & i64::MAX;
    (m as u64).trailing_zeros()
}

// The product of the numerators.
pub fn product(x: [i64; 4], y: [i64; 4]) -> [i64; 4]
    requires { Within narrow_numerator (number_of x) × Within narrow_numerator (number_of y) }
    ensures { result ≡ list_of (numbers.◌⊗◌ (number_of x) (number_of y)) }
{
    let [x0, x1, x2, x3] = x;
    let [y0, y1, y2, y3] = y;
    let m0 = x0 * y0 + 2 * (x1 * y1) - x2 * y2 - 2 * (x3 * y3);
    let m1 = x0 * y1 + x1 * y0 - x2 * y3 - x3 * y2;
    let m2 = x0 * y2 + 2 * (x1 * y3) + x2 * y0 + 2 * (x3 * y1);
    let m3 = x0 * y3 + x1 * y2 + x2 * y1 + x3 * y0;
    [m0, m1, m2, m3]
}

// The numerators of x times the conjugate of y, by nine products.
pub fn conj_product(x: [i64; 4], y: [i64; 4]) -> [i64; 4]
    requires { Within narrow_numerator (number_of x) × Within narrow_numerator (number_of y) }
    ensures { result ≡ list_of (numbers.◌⊗◌ (number_of x) (conjugate root2 (number_of y))) }
{
    let [x0, x1, x2, x3] = x;
    let [y0, y1, y2, y3] = y;
    let a = x0 * y0;
    let b = x1 * y1;
    let c = (x0 + x1) * (y0 + y1) - a - b;
    let p = x2 * y2;
    let q = x3 * y3;
    let r = (x2 + x3) * (y2 + y3) - p - q;
    let u0 = x0 + x2;
    let u1 = x1 + x3;
    let v0 = y0 - y2;
    let v1 = y1 - y3;
    let s = u0 * v0;
    let t = u1 * v1;
    let w = (u0 + u1) * (v0 + v1) - s - t;
    let d = a + 2 * b;
    let e = p + 2 * q;
    let m0 = d + e;
    let m1 = c + r;
    let m2 = s + 2 * t - d + e;
    let m3 = w - c + r;
    [m0, m1, m2, m3]
}

// The sums of the numerators.
pub fn sum4(x: [i64; 4], y: [i64; 4]) -> [i64; 4]
    requires { Within room_numerator (number_of x) × Within max_numerator (number_of y) }
    ensures { result ≡ list_of (numbers.◌⊕◌ (number_of x) (number_of y)) }
{
    [x[0] + y[0], x[1] + y[1], x[2] + y[2], x[3] + y[3]]
}

// The negatives of the numerators.
pub fn neg4(x: [i64; 4]) -> [i64; 4]
    requires { Within room_numerator (number_of x) }
    ensures { result ≡ list_of (numbers.neg (number_of x)) }
{
    [-x[0], -x[1], -x[2], -x[3]]
}

// The numerators of the conjugate.
pub fn conj4(x: [i64; 4]) -> [i64; 4]
    requires { Within room_numerator (number_of x) }
    ensures { result ≡ list_of (conjugate root2 (number_of x)) }
{
    [x[0], x[1], -x[2], -x[3]]
}

// The numerators times 2^d.
pub fn scaled4(x: [i64; 4], d: u32) -> [i64; 4]
    requires { (d ≤ max_exponent) × Within room_numerator (scaled (number_of x) d) }
    ensures { result ≡ list_of (scaled (number_of x) d) }
{
    let p = 1i64 << d;
    [x[0] * p, x[1] * p, x[2] * p, x[3] * p]
}
