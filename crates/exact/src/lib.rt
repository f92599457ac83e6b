// Exact numbers: arithmetic on the four numerators, and the questions asked of them.
#![tactic(auto)]

pub mod numerators;
pub mod ranges;

// The numerators lie from −2^61 to 2^61.
pub const MAX_NUMERATOR: i64 = 1 << 61;

// The exponents lie from 0 to 60.
pub const MAX_EXPONENT: u32 = 60;

// A narrow scalar's exponent lies from 0 to 29.
pub const NARROW_EXPONENT: u32 = 29;

// A narrow scalar's numerators lie from −2^29 to 2^29.
pub const NARROW_NUMERATOR: i64 = 1 << NARROW_EXPONENT;

// A first term of a sum: with a second in range, one of at most this size has its sum in a word.
pub const ROOM_NUMERATOR: i64 = 2 * MAX_NUMERATOR;
