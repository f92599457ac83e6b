// The questions that are asked of four numerators: ranges, and whether all are even or zero.
// Kept (facts): d ≤ 60, a difference of two exponents, is asked where 2^d is made; a type for it would be made of the two and opened at once.
ghost use Rattle.std.specs.Prelude.{◌≡◌, ◌≤◌, leb, nat_abs};
ghost use Rattle.exact.specs.Exact.{number_halves, max_exponent, within, is_zero, number_of};
ghost use Rattle.exact.specs.Inner.Sizes.{scaled, room_numerator};

use super::ROOM_NUMERATOR;

// Kept: two ways. Every caller's m is known not to be negative, and two signed tests of four numerators at once take fewer instructions than four sizes.
// Whether x lies from −|m| to |m|.
pub fn at_most(x: i64, m: i64) -> bool
    ensures { result ≡ leb (nat_abs x) (nat_abs m) }
{
    if m < 0 {
        return x.unsigned_abs() <= m.unsigned_abs();
    }
    (-m <= x) & (x <= m)
}

// Whether each of the four lies from −|m| to |m|.
pub fn are_within(x: [i64; 4], m: i64) -> bool
    ensures { result ≡ within (nat_abs m) (number_of x) }
{
    at_most(x[0], m) & at_most(x[1], m) & at_most(x[2], m) & at_most(x[3], m)
}

// Whether each of the four times 2^d has room.
pub fn can_scale(x: [i64; 4], d: u32) -> bool
    requires { d ≤ max_exponent }
    ensures { result ≡ within room_numerator (scaled (number_of x) d) }
{
    are_within(x, ROOM_NUMERATOR >> d)
}

// Whether all four are even.
pub fn all_even(x: [i64; 4]) -> bool
    ensures { result ≡ number_halves.even (number_of x) }
{
    ((x[0] | x[1]) | (x[2] | x[3])) & 1 == 0
}

// Whether all four are zero.
pub fn all_zero(x: [i64; 4]) -> bool
    ensures { result ≡ is_zero (number_of x) }
{
    (x[0] | x[1] | x[2] | x[3]) == 0
}
