// The powers of ω, which is (1 + i) / √2, by table.
ghost use Rattle.std.specs.Prelude.{◌≡◌, true};
ghost use Rattle.exact.specs.Exact.{omega};
ghost use Rattle.scalar.specs.Calls.{scalar_of};
ghost use Rattle.scalar.specs.Inner.Powers.{are_powers};

use super::Scalar;

// ω^0 to ω^7
static POWERS: [Scalar; 8] = [
    Scalar {
        n: [1, 0, 0, 0],
        e: 0,
    },
    Scalar {
        n: [0, 1, 0, 1],
        e: 1,
    },
    Scalar {
        n: [0, 0, 1, 0],
        e: 0,
    },
    Scalar {
        n: [0, -1, 0, 1],
        e: 1,
    },
    Scalar {
        n: [-1, 0, 0, 0],
        e: 0,
    },
    Scalar {
        n: [0, -1, 0, -1],
        e: 1,
    },
    Scalar {
        n: [0, 0, -1, 0],
        e: 0,
    },
    Scalar {
        n: [0, 1, 0, -1],
        e: 1,
    },
];

// The table, which is tested whole.
fn table() -> &'static [Scalar; 8]
    ensures { are_powers result.now ≡ true }
{
    &POWERS
}

// ω^(k mod 8)
pub fn power(k: u32) -> Scalar
    ensures { result ≡ scalar_of (omega k) }
{
    let j = k % 8;
    table()[j as usize]
}
