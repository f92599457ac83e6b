// The calls of the C interface on what texts say, and on the words of an answer.
// Kept (together): the parameters are those of the C interface.
#![tactic(auto)]

ghost use Rattle.std.specs.Prelude.{◌≡◌};
ghost use Rattle.text.specs.Page.{page, write};
ghost use Rattle.answers.specs.Numbers.{number_text};
ghost use Rattle.answers.specs.States.{store_bits, entry_text};
ghost use Rattle.judge_texts.specs.Call.{answer_of, text_of, gates_after, first_after, second_after, work_after_both};
ghost use Rattle.text_channel.specs.Only.{only_reply, only_text, only_gates, only_result, only_work};
ghost use Rattle.c_scalars.specs.Words.{operand};
ghost use Rattle.c_channels.specs.Channels.{scalar_words};
ghost use Rattle.c_circuits.specs.Circuits.{limits_of};
ghost use Rattle.c_texts.specs.Answers.{answer_number, entry_of, fault_numbers, answer_numbers, reply_number, reply_numbers};

pub mod openqasm;

use answer_lines::Fault;
use answers::numbers::put_number;
use answers::states::{put_bra_ket, put_store};
use c_channels::{difference, finding_number, place_words, scalar_words};
use c_circuits::read_limits;
use c_scalars::words::read_operand;
use c_scalars::words::replies::{LEFT_REFUSED, RIGHT_REFUSED};
use cells::CELL;
use compare::Difference;
use judge_texts::Answer;
use text::page::Writer;
use verdict::Refusal;

fn answer_number(a: Answer) -> u32
    ensures { result ≡ answer_number a }
{
    match a {
        Answer::NoRoom => Refusal::ShortBuffer.number(),
        Answer::Left(_) => LEFT_REFUSED,
        Answer::Right(_) => RIGHT_REFUSED,
        Answer::Compared(found) => finding_number(&found),
    }
}

// The entry that differs, if one does.
fn entry_of(a: Answer) -> Option<Difference>
    ensures { result ≡ entry_of a }
{
    match a {
        Answer::Compared(found) => difference(&found),
        _ => None,
    }
}

// The number and index of the refusal, the byte's position, line and column, and how many gates there are.
fn fault_numbers(f: Fault) -> [u64; 6]
    ensures { result ≡ fault_numbers f }
{
    [
        f.refusal.number() as u64,
        f.refusal.index() as u64,
        f.position as u64,
        f.line as u64,
        f.column as u64,
        f.gates as u64,
    ]
}

// Those of a refusal; else the store, row and column of an entry that differs.
fn answer_numbers(a: Answer) -> [u64; 6]
    ensures { result ≡ answer_numbers a }
{
    match a {
        Answer::NoRoom => [0; 6],
        Answer::Left(fault) => fault_numbers(fault),
        Answer::Right(fault) => fault_numbers(fault),
        Answer::Compared(found) => {
            let [store, row, column] = place_words(difference(&found));
            [store, row, column, 0, 0, 0]
        }
    }
}

// Judges two texts: a number for the answer, six numbers behind it, both scalars of an entry that differs, and how many bytes of `answer` say it.
pub fn judge_texts(
    left: &[u8],
    right: &[u8],
    store: &[u8],
    limits: &[u64; 6],
    gates: &mut [u32],
    first: &mut [i64],
    second: &mut [i64],
    work: &mut [i64],
    answer: &mut [u8],
    bytes: &mut usize,
    numbers: &mut [u64; 6],
    scalars: &mut [i64; 2 * CELL],
) -> u32
    ensures value { result ≡ answer_number
        (answer_of left.now right.now store.now (limits_of limits.now) gates.old first.old second.old work.old answer.old) }
    ensures numbers_after { numbers.new ≡ answer_numbers
        (answer_of left.now right.now store.now (limits_of limits.now) gates.old first.old second.old work.old answer.old) }
    ensures scalars_after { scalars.new ≡ scalar_words (entry_of
        (answer_of left.now right.now store.now (limits_of limits.now) gates.old first.old second.old work.old answer.old)) }
    ensures bytes_after { page answer.new bytes.new ≡ write (page answer.old 0)
        (text_of left.now right.now store.now (limits_of limits.now) gates.old first.old second.old work.old answer.old) }
    ensures gates_after { gates.new ≡
        gates_after left.now right.now store.now (limits_of limits.now) gates.old first.old second.old work.old answer.old }
    ensures first_after { first.new ≡
        first_after left.now right.now store.now (limits_of limits.now) gates.old first.old second.old work.old answer.old }
    ensures second_after { second.new ≡
        second_after left.now right.now store.now (limits_of limits.now) gates.old first.old second.old work.old answer.old }
    ensures work_after { work.new ≡
        work_after_both left.now right.now store.now (limits_of limits.now) gates.old first.old second.old work.old answer.old }
{
    let l = read_limits(limits);
    let j = judge_texts::judge_texts(left, right, store, l, gates, first, second, work, answer);
    *bytes = j.bytes;
    *numbers = answer_numbers(j.answer);
    *scalars = scalar_words(entry_of(j.answer));
    answer_number(j.answer)
}

// The channel of the circuit in a text: the verdict's number, the numbers of its refusal, and how many bytes of `answer` say it.
pub fn text_channel(
    text: &[u8],
    store: &[u8],
    limits: &[u64; 6],
    gates: &mut [u32],
    res: &mut [i64],
    work: &mut [i64],
    answer: &mut [u8],
    bytes: &mut usize,
    numbers: &mut [u64; 6],
) -> u32
    ensures value { result ≡ reply_number (only_reply text.now store.now (limits_of limits.now) gates.old res.old work.old answer.old) }
    ensures numbers_after { numbers.new ≡ reply_numbers (only_reply text.now store.now (limits_of limits.now) gates.old res.old work.old answer.old) }
    ensures bytes_after { page answer.new bytes.new ≡ write (page answer.old 0)
        (only_text text.now store.now (limits_of limits.now) gates.old res.old work.old answer.old) }
    ensures gates_after { gates.new ≡ only_gates text.now store.now (limits_of limits.now) gates.old res.old work.old answer.old }
    ensures res_after { res.new ≡ only_result text.now store.now (limits_of limits.now) gates.old res.old work.old answer.old }
    ensures work_after { work.new ≡ only_work text.now store.now (limits_of limits.now) gates.old res.old work.old answer.old }
{
    let l = read_limits(limits);
    match text_channel::text_channel(text, store, l, gates, res, work, answer) {
        Ok(()) => {
            *bytes = 0;
            *numbers = [0; 6];
            0
        }
        Err(refused) => {
            *bytes = refused.bytes;
            *numbers = fault_numbers(refused.fault);
            refused.fault.refusal.number()
        }
    }
}

// A scalar as mathematics writes it: how many bytes were put into `out`.
pub fn number_text(x: &[i64; CELL], out: &mut [u8]) -> usize
    ensures { page out.new result ≡ write (page out.old 0) (number_text (operand x.now)) }
{
    let mut w = Writer::new(out);
    put_number(&mut w, read_operand(x));
    w.at
}

// Row and column of a Choi block on so many qubits, as the input and the output that they mean.
pub fn entry_text(qubits: u32, row: usize, column: usize, out: &mut [u8]) -> usize
    ensures { page out.new result ≡ write (page out.old 0) (entry_text qubits row column) }
{
    let mut w = Writer::new(out);
    put_bra_ket(&mut w, qubits, row, column);
    w.at
}

// The bits of a store from bit 0 on.
pub fn store_text(store: u64, bits: u32, out: &mut [u8]) -> usize
    ensures { page out.new result ≡ write (page out.old 0) (store_bits bits store) }
{
    let mut w = Writer::new(out);
    put_store(&mut w, store, bits);
    w.at
}
