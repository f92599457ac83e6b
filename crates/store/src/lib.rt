// Stores: the values of the classical bits. As bytes, one a bit; as a number, in which bit j weighs 2^j; as two words of 32 bits, the low one first.
// Kept (facts): at most 64 bits, a number of the header of a channel; channel::records says why it has no type.
#![tactic(auto)]

ghost use Rattle.std.specs.Prelude.{◌≡◌, true, ◌+◌, ◌≤◌, ◌^◌, ltb, length, get_or, take, drop, pos};
ghost use Rattle.algebra.specs.Words.{from_bits, up_to};
ghost use Rattle.store.specs.Store.{store_fits, before, max_word, store_from};
ghost use Rattle.store.specs.Inner.Held.{Bits, StoreAt};

// The bits of a word of a store.
pub const WORD_BITS: u32 = 32;

// The weight of the high word.
const HIGH: u64 = 1 << WORD_BITS;

// The largest word of a store.
pub const MAX_WORD: u64 = HIGH - 1;

// Whether a store has one byte for each of its bits, each 0 or 1.
pub fn is_store(store: &[u8], bits: u32) -> bool
    ensures { result ≡ store_fits bits store.now }
{
    store.len() == bits as usize && store.iter().all(|&b| b <= 1)
}

// The number of at most 64 bits, the lowest first.
pub fn pack(bits: &[u8]) -> u64
    requires { (length bits.now ≤ 64) × Bits bits.now }
    ensures { result ≡ from_bits bits.now }
{
    let mut x = 0;
    for &b in bits.iter().rev() {
        x = x * 2 + u64::from(b);
    }
    x
}

// Whether a store has no bit beyond its first m.
pub fn fits_bits(store: u64, m: u32) -> bool
    requires { m ≤ 64 }
    ensures { result ≡ ltb store (2 ^ m) }
{
    64 <= m || store >> m == 0
}

// Kept: an order of its own, from bit 0 up; a type for it would be made of the number at each comparison.
// Whether store x comes before store y: the first bit that differs is 0 in x.
pub fn comes_before(x: u64, y: u64) -> bool
    ensures { result ≡ before x y }
{
    let t = (x ^ y).trailing_zeros();
    t < 64 && (y >> t) & 1 == 1
}

// A store from its two words.
pub fn join(low: i64, high: i64) -> u64
    requires { (up_to max_word low ≡ true) × (up_to max_word high ≡ true) }
    ensures { result ≡ store_from low high }
{
    low as u64 + high as u64 * HIGH
}

// Kept: words and a place in them, since a store stands between the other words of a branch or a record.
// The store in the two words from `at` on.
pub fn store_from(s: &[i64], at: usize) -> u64
    requires { StoreAt s.now at }
    ensures { result ≡ store_from (get_or s.now at (pos 0)) (get_or s.now (at + 1) (pos 0)) }
{
    join(s[at], s[at + 1])
}
