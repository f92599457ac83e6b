// Scalars of a text.
// Kept (buffers, twins): a place in the text, and a value with the next one, as in words.rt.
ghost use Rattle.std.specs.Prelude.{◌≡◌};
ghost use Rattle.replay.specs.Record.{scalar_at};

use crate::numeral::{low, read};
use scalar::Scalar;

// A scalar, and where the next number begins.
#[derive(Clone, Copy)]
pub struct ScalarRead {
    pub value: Scalar,
    pub next: usize,
}

pub fn read_scalar(text: &[u8], at: usize) -> ScalarRead
    ensures { result ≡ scalar_at text.now at }
{
    let n0 = read(text, at);
    let n1 = read(text, n0.next);
    let n2 = read(text, n1.next);
    let n3 = read(text, n2.next);
    let e = read(text, n3.next);
    ScalarRead {
        value: Scalar {
            n: [n0.value, n1.value, n2.value, n3.value],
            e: low(e.size),
        },
        next: e.next,
    }
}
