// The checksum of words: two polynomial sums mod 2^31 − 1, over the low 31 bits and then the high bits of each word + 2^61.
ghost use Rattle.std.specs.Prelude.{◌≡◌};
ghost use Rattle.replay.specs.Checksum.{shifted, with_part, with_word, joined, checksum_of};

use exact::ranges::at_most;

const PRIME: u64 = 2147483647;

// The two sums.
#[derive(Clone, Copy)]
struct Sums {
    pub a: u64,
    pub b: u64,
}

// w + 2^61, or 0 where w is not from −2^61 to 2^61.
#[tactic(auto, unfolding(crate::specs::Checksum::shifted))]
fn shifted(w: i64) -> u64
    ensures { result ≡ shifted w }
{
    if at_most(w, 2305843009213693952) {
        (w + 2305843009213693952) as u64
    } else {
        0
    }
}

impl Sums {
    #[tactic(auto, unfolding(crate::specs::Checksum::with_part))]
    fn with_part(self, v: u64) -> Sums
        ensures { result ≡ with_part self v }
    {
        Sums {
            a: (self.a % PRIME * 1103515245 + v % 4294967296) % PRIME,
            b: (self.b % PRIME * 362437069 + v % 4294967296) % PRIME,
        }
    }

    #[tactic(auto, unfolding(crate::specs::Checksum::with_word))]
    fn with_word(self, w: i64) -> Sums
        ensures { result ≡ with_word self w }
    {
        let v = shifted(w);
        self.with_part(v % 2147483648).with_part(v / 2147483648)
    }

    fn joined(self) -> u64
        ensures { result ≡ joined self }
    {
        self.a % PRIME * 2147483648 + self.b % PRIME
    }
}

pub fn checksum(words: &[i64]) -> u64
    ensures { result ≡ checksum_of words.now }
{
    let mut sums = Sums { a: 0, b: 0 };
    for w in words {
        sums = sums.with_word(*w);
    }
    sums.joined()
}
