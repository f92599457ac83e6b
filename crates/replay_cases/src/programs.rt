// Cases of judge_pauli and of pauli_channel.
// Kept (buffers): the places in the text are those of crate replay, which says why.
// Kept (together): a text, a place and lent buffers, as in reading.rt.
// Kept (switches): judge_pauli takes the lengths of the buffers, and pauli_channel the buffers.
ghost use Rattle.std.specs.Prelude.{◌≡◌};
ghost use Rattle.replay_cases.specs.Programs.{judged, called, lent, run, asked, program_case};

use crate::kinds::PauliCall;
use circuit::limits::Limits;
use pauli::call::pauli_channel;
use pauli_judge::questions::judge_pauli;
use pauli_words::Program;
use replay::answers::{check_call, check_verdict};
use replay::numeral::{low, read};
use replay::record::Record;
use replay::words::{fitting, mark, read_numbers};

// Room for the words of nodes and of operations, for a store, for the words of a result and for work.
const WORDS: usize = 5200;

const STORE: usize = 65;

const RESULT: usize = 263000;

const WORK: usize = 20000;

// judge_pauli, for a result and work of these lengths; verdict and index.
fn judged(text: &[u8], at: usize, program: Program, after: u64, spent: u64) -> Record
    ensures { let p = program.entry in result ≡ judged text.now at p.qubits p.bits p.store.now p.nodes.now p.operations.now after spent }
{
    let v = judge_pauli(program, Limits::defaults(), after, spent);
    check_verdict(Record::begin(at), text, v)
}

// pauli_channel on marked buffers; verdict, index and the checksums of both buffers.
fn called(text: &[u8], at: usize, program: Program, res: &mut [i64], work: &mut [i64]) -> Record
    ensures { let p = program.entry in result ≡ called text.now at p.qubits p.bits p.store.now p.nodes.now p.operations.now res.old work.old }
{
    mark(res);
    mark(work);
    let v = pauli_channel(program, Limits::defaults(), res, work);
    check_call(Record::begin(at), text, v, res, work)
}

// The same with these lengths of the buffers.
fn lent(
    text: &[u8],
    at: usize,
    program: Program,
    after: u64,
    spent: u64,
    res: &mut [i64],
    work: &mut [i64],
) -> Record
    ensures { let p = program.entry in result ≡ lent text.now at p.qubits p.bits p.store.now p.nodes.now p.operations.now after spent res.old work.old }
{
    let r = fitting(after, res.len());
    let w = fitting(spent, work.len());
    called(text, at, program, &mut res[..r], &mut work[..w])
}

// Kept: not inlined, as no case is (kinds.rt says why): of a program that is judged alone nothing is lent.
// The same with the buffers that it lends.
#[inline(never)]
fn run(text: &[u8], at: usize, program: Program, after: u64, spent: u64) -> Record
    ensures { let p = program.entry in result ≡ run text.now at p.qubits p.bits p.store.now p.nodes.now p.operations.now after spent }
{
    let mut result = [0i64; RESULT];
    let mut work = [0i64; WORK];
    lent(text, at, program, after, spent, &mut result, &mut work)
}

fn asked(
    call: PauliCall,
    text: &[u8],
    at: usize,
    program: Program,
    after: u64,
    spent: u64,
) -> Record
    ensures { let p = program.entry in result ≡ asked text.now at p.qubits p.bits p.store.now p.nodes.now p.operations.now call after spent }
{
    match call {
        PauliCall::Judged => judged(text, at, program, after, spent),
        PauliCall::Run => run(text, at, program, after, spent),
    }
}

// Both counts, the lengths of result and work, the store, the nodes and the operations; what the call answers.
#[inline(never)]
pub fn program_case(call: PauliCall, text: &[u8], at: usize) -> Record
    ensures { result ≡ program_case call text.now at }
{
    let mut store_room = [0u8; STORE];
    let mut nodes_room = [0u32; WORDS];
    let mut operations_room = [0u32; WORDS];
    let qubits = read(text, at);
    let bits = read(text, qubits.next);
    let after = read(text, bits.next);
    let spent = read(text, after.next);
    let store = read_numbers(text, spent.next, &mut store_room);
    let nodes = read_numbers(text, store.next, &mut nodes_room);
    let operations = read_numbers(text, nodes.next, &mut operations_room);
    let program = Program {
        qubits: low(qubits.size),
        bits: low(bits.size),
        store: store.words,
        nodes: nodes.words,
        operations: operations.words,
    };
    asked(call, text, operations.next, program, after.size, spent.size)
}
