// Two texts of OpenQASM 2 in, one answer out: whether their circuits do the same, from the first byte read to the last byte answered.
// Kept (together): the lent buffers. In one struct they would be lent anew for each text, and each contract would say of each buffer that it is the same one, beside what it holds.
#![tactic(auto)]

ghost use Rattle.std.specs.Prelude.{◌≡◌};
ghost use Rattle.qasm.specs.Reading.{read_of, filled};
ghost use Rattle.text.specs.Page.{page, write};
ghost use Rattle.text.specs.Inner.Puts.{Puts};
ghost use Rattle.text_sides.specs.Sides.{result_by, work_by};
ghost use Rattle.judge_texts.specs.Call.{compared_text, answer_of, text_of, gates_after, first_after, second_after, work_after_both};
ghost use Rattle.judge_texts.specs.Inner.Behind.{judged_behind, text_behind};

use answer_lines::{Fault, Which, put_different, put_dimensions, put_same};
use circuit::limits::Limits;
use compare::{Comparison, compare};
use qasm::reader::Reading;
use text::page::Writer;
use text_channel::MAX_ANSWER;
use text_channel::refusals::refuse;
use text_sides::run_side;
use verdict::Refusal;

// No room for an answer; the left text or circuit refused, or the right one; or what the comparison of both channels found.
#[derive(Clone, Copy)]
pub enum Answer {
    NoRoom,
    Left(Fault),
    Right(Fault),
    Compared(Result<Comparison, Refusal>),
}

// An answer, and how many bytes say it.
// Kept: the bytes lie in the lent room; a slice of them would hold that loan, and the C interface answers how many there are.
#[derive(Clone, Copy)]
pub struct Judgement {
    pub answer: Answer,
    pub bytes: usize,
}

// Puts the answer of a comparison of the channels of two circuits.
// Kept: each finding has a text of its own, of other arguments: a match is the plain form.
fn put_compared(out: &mut Writer<'_>, l: Reading, r: Reading, answer: Result<Comparison, Refusal>)
    ensures { Puts out.old (compared_text l r answer) out.new }
{
    match answer {
        Ok(Comparison::Same) => put_same(out),
        Ok(Comparison::Dimensions) => put_dimensions(out, l.qubits, l.bits, r.qubits, r.bits),
        Ok(Comparison::Differs(d)) => put_different(
            out, l.qubits, l.bits, d.place, d.left, d.right,
        ),
        Err(_) => (),
    }
}

// The right text, behind a left one whose circuit is accepted and whose channel is `first`.
fn judge_right(
    l: Reading,
    first: &[i64],
    right: &[u8],
    store: &[u8],
    limits: Limits,
    gates: &mut [u32],
    second: &mut [i64],
    work: &mut [i64],
    out: &mut [u8],
) -> Judgement
    ensures answer { result.answer ≡ judged_behind l first.now right.now store.now limits gates.old second.old work.old }
    ensures text { page out.new result.bytes ≡ write (page out.old 0) (text_behind l first.now right.now store.now limits gates.old second.old work.old) }
    ensures gates { gates.new ≡ filled gates.old (read_of right.now) }
    ensures second { second.new ≡ result_by store.now limits gates.old second.old work.old (read_of right.now) }
    ensures work { work.new ≡ work_by store.now limits gates.old second.old work.old (read_of right.now) }
{
    let r = match run_side(right, store, limits, gates, second, work) {
        Ok(reading) => reading,
        Err(why) => {
            let refused = refuse(out, Which::Right, right, gates, why);
            return Judgement {
                answer: Answer::Right(refused.fault),
                bytes: refused.bytes,
            };
        }
    };
    let found = compare(first, second);
    let mut w = Writer::new(out);
    put_compared(&mut w, l, r, found);
    Judgement {
        answer: Answer::Compared(found),
        bytes: w.at,
    }
}

// Judges two texts: do their circuits, whose first classical bits start as `store` and the others as 0, have the same channel? The answer in words goes to `out`, from its start on; the other buffers are lent for the work.
pub fn judge_texts(
    left: &[u8],
    right: &[u8],
    store: &[u8],
    limits: Limits,
    gates: &mut [u32],
    first: &mut [i64],
    second: &mut [i64],
    work: &mut [i64],
    out: &mut [u8],
) -> Judgement
    ensures answer { result.answer ≡ answer_of left.now right.now store.now limits gates.old first.old second.old work.old out.old }
    ensures text { page out.new result.bytes ≡ write (page out.old 0)
        (text_of left.now right.now store.now limits gates.old first.old second.old work.old out.old) }
    ensures gates { gates.new ≡ gates_after left.now right.now store.now limits gates.old first.old second.old work.old out.old }
    ensures first { first.new ≡ first_after left.now right.now store.now limits gates.old first.old second.old work.old out.old }
    ensures second { second.new ≡ second_after left.now right.now store.now limits gates.old first.old second.old work.old out.old }
    ensures work { work.new ≡ work_after_both left.now right.now store.now limits gates.old first.old second.old work.old out.old }
{
    if out.len() < MAX_ANSWER {
        return Judgement {
            answer: Answer::NoRoom,
            bytes: 0,
        };
    }
    match run_side(left, store, limits, gates, first, work) {
        Ok(l) => judge_right(l, first, right, store, limits, gates, second, work, out),
        Err(why) => {
            let refused = refuse(out, Which::Left, left, gates, why);
            Judgement {
                answer: Answer::Left(refused.fault),
                bytes: refused.bytes,
            }
        }
    }
}
