// Cases of texts: a circuit that is read from one, and one that is written.
// Kept (buffers): the places in the text are those of crate replay, which says why.
// Kept (together): the counts and the words, as `write_qasm` takes them.
// Kept (kinds): how many words or bytes there are is a number of the reply, 0 for a refusal, and so many are compared; a match on the answer would say it again.
// Kept (twins): reading and writing differ in the call, its answer and the type of what is compared; they share the record's own methods.
ghost use Rattle.std.specs.Prelude.{◌≡◌};
ghost use Rattle.replay.specs.Record.{begun};
ghost use Rattle.replay_cases.specs.Texts.{reading_numbers, writing_numbers, with_reading, with_read, read_case, with_writing, with_written, write_case};

use qasm::reader::{Fault, Reading, read_qasm};
use qasm_writer::write_qasm;
use replay::lines::read_line;
use replay::numeral::{low, read};
use replay::record::Record;
use replay::words::{fitting, read_numbers};
use verdict::{Refusal, index, number};

// Room for the words of a circuit, and for the bytes of its text.
const WORDS: usize = 1024;

const BYTES: usize = 300;

// Verdict, both counts, how many words there are, and the position of the fault.
fn reading_numbers(answer: Result<Reading, Fault>) -> [u64; 5]
    ensures { result ≡ reading_numbers answer }
{
    match answer {
        Ok(r) => [0, u64::from(r.qubits), u64::from(r.bits), r.words as u64, 0],
        Err(f) => [u64::from(f.refusal.number()), 0, 0, 0, f.position as u64],
    }
}

// The reply, and the words that were written.
fn check_reading(seen: Record, text: &[u8], answer: Result<Reading, Fault>, words: &[u32]) -> Record
    ensures { result ≡ with_reading text.now seen answer words.now }
{
    let numbers = reading_numbers(answer);
    let n = fitting(numbers[3], words.len());
    seen.numbers(text, &numbers).numbers(text, &words[..n])
}

// The call, with its answer held against the record.
fn was_read(text: &[u8], at: usize, given: &[u8], words: &mut [u32]) -> Record
    ensures { result ≡ with_read text.now (begun at) given.now words.old }
{
    let answer = read_qasm(given, words);
    check_reading(Record::begin(at), text, answer, words)
}

// A text of so many bytes and a newline, the room for words; the reply and the words.
#[inline(never)]
pub fn read_case(text: &[u8], at: usize) -> Record
    ensures { result ≡ read_case text.now at }
{
    let mut words = [0u32; WORDS];
    let line = read_line(text, at);
    let room = read(text, line.next);
    let n = fitting(room.size, WORDS);
    was_read(text, room.next, line.bytes, &mut words[..n])
}

// Verdict, index, and how many bytes there are.
fn writing_numbers(answer: Result<usize, Refusal>) -> [u64; 3]
    ensures { result ≡ writing_numbers answer }
{
    [
        u64::from(number(&answer)),
        index(&answer) as u64,
        answer.unwrap_or(0) as u64,
    ]
}

// The reply, and the bytes that were written.
fn check_writing(seen: Record, text: &[u8], answer: Result<usize, Refusal>, out: &[u8]) -> Record
    ensures { result ≡ with_writing text.now seen answer out.now }
{
    let numbers = writing_numbers(answer);
    let n = fitting(numbers[2], out.len());
    seen.numbers(text, &numbers).bytes(text, &out[..n])
}

// The call, with its answer held against the record.
fn was_written(
    text: &[u8],
    at: usize,
    qubits: u32,
    bits: u32,
    words: &[u32],
    out: &mut [u8],
) -> Record
    ensures { result ≡ with_written text.now (begun at) qubits bits words.now out.old }
{
    let answer = write_qasm(qubits, bits, words, out);
    check_writing(Record::begin(at), text, answer, out)
}

// Both counts, the words, the room for bytes; the reply and the bytes.
#[inline(never)]
pub fn write_case(text: &[u8], at: usize) -> Record
    ensures { result ≡ write_case text.now at }
{
    let mut words = [0u32; WORDS];
    let mut out = [0u8; BYTES];
    let qubits = read(text, at);
    let bits = read(text, qubits.next);
    let given = read_numbers(text, bits.next, &mut words);
    let room = read(text, given.next);
    let n = fitting(room.size, BYTES);
    was_written(
        text,
        room.next,
        low(qubits.size),
        low(bits.size),
        given.words,
        &mut out[..n],
    )
}
