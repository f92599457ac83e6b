// The channel of the circuit in a text of OpenQASM 2, or why there is none, in words.
// Kept (together): the lent buffers. Of one struct each contract would say of each buffer that it is the same one, beside what it holds.
#![tactic(auto)]

pub mod refusals;

ghost use Rattle.std.specs.Prelude.{◌≡◌};
ghost use Rattle.std.specs.Result.{result_map_both};
ghost use Rattle.text.specs.Page.{page, write};
ghost use Rattle.text_channel.specs.Only.{bytes_of, only_reply, only_text, only_gates, only_result, only_work};

use self::refusals::{no_place, refuse};
use answer_lines::{Fault, Which};
use circuit::limits::Limits;
use text_sides::run_side;
use verdict::Refusal;

// The least room for an answer.
pub const MAX_ANSWER: usize = 1024;

// Why there is no channel, and how many bytes say it.
// Kept: the bytes lie in the lent room; a slice of them would hold that loan, and the C interface answers how many there are.
#[derive(Clone, Copy)]
pub struct Refused {
    pub fault: Fault,
    pub bytes: usize,
}

// The channel of the circuit in a text, left in `res`; where there is none, the reason goes to `out` in words.
pub fn text_channel(
    text: &[u8],
    store: &[u8],
    limits: Limits,
    gates: &mut [u32],
    res: &mut [i64],
    work: &mut [i64],
    out: &mut [u8],
) -> Result<(), Refused>
    ensures reply { result_map_both (λ x. x) (λ r. r.fault) result ≡ only_reply text.now store.now limits gates.old res.old work.old out.old }
    ensures text { page out.new (bytes_of result) ≡ write (page out.old 0)
        (only_text text.now store.now limits gates.old res.old work.old out.old) }
    ensures gates { gates.new ≡ only_gates text.now store.now limits gates.old res.old work.old out.old }
    ensures res { res.new ≡ only_result text.now store.now limits gates.old res.old work.old out.old }
    ensures work { work.new ≡ only_work text.now store.now limits gates.old res.old work.old out.old }
{
    if out.len() < MAX_ANSWER {
        return Err(Refused {
            fault: no_place(Refusal::ShortBuffer, 0),
            bytes: 0,
        });
    }
    match run_side(text, store, limits, gates, res, work) {
        Ok(_) => Ok(()),
        Err(why) => Err(refuse(out, Which::Only, text, gates, why)),
    }
}
