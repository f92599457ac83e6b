// The decimal number in a piece of text.
ghost use Rattle.std.specs.Prelude.{◌≡◌, true, ◌≤◌};
ghost use Rattle.text.specs.Decimal.{is_digit, digit, number_of};
ghost use Rattle.text.specs.Inner.Number.{max_tenth};

use super::bytes::is_digit;

// The most digits of a number.
pub const MAX_DIGITS: usize = 10;

// Ten times as much, and a digit, fit in 64 bits.
pub const MAX_TENTH: u64 = 1844674407370955160;

// A number with one more digit behind it.
pub fn with_digit(v: u64, b: u8) -> u64
    requires { (v ≤ max_tenth) × (is_digit b ≡ true) }
    ensures { result ≡ digit v b }
{
    v * 10 + u64::from(b - b'0')
}

// The number in a piece of 1 to 10 digits that say one of 32 bits.
pub fn number_in(piece: &[u8]) -> Option<u32>
    ensures { result ≡ number_of piece.now }
{
    if piece.is_empty() || MAX_DIGITS < piece.len() {
        return None;
    }
    let mut v: u64 = 0;
    for &b in piece {
        if !is_digit(b) {
            return None;
        }
        v = with_digit(v, b);
    }
    u32::try_from(v).ok()
}
