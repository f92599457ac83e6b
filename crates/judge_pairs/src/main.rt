// Judges pairs of texts. Standard input: how many pairs there are, then for each how many initial bits are given and these bits, the left text and the right one, each with
// its length on a line before it and a newline behind it. Each answer goes to standard output, with a line of dashes behind it.
// Kept (buffers): the places in the text are those of crate replay, which says why; `turn` hands out where the next pair begins.
#![tactic(auto)]

use circuit::limits::Limits;
use judge_texts::judge_texts;
use replay::input::read_full;
use replay::lines::read_line;
use replay::numeral::read;
use replay::words::{fitting, read_numbers};
use std::io;
use text_channel::MAX_ANSWER;

// Room for the pairs, and for initial bits.
const TEXT: usize = 30000;

const BITS: usize = 80;

// Judges a pair, and writes the answer.
fn judge_pair(rt: &impl Print, store: &[u8], left: &[u8], right: &[u8]) -> io::Result<()> {
    let mut gates = [0u32; 1100];
    let mut first = [0i64; 5200];
    let mut second = [0i64; 5200];
    let mut work = [0i64; 3000];
    let mut out = [0u8; MAX_ANSWER];
    let j = judge_texts(
        left,
        right,
        store,
        Limits::defaults(),
        &mut gates,
        &mut first,
        &mut second,
        &mut work,
        &mut out,
    );
    let n = fitting(j.bytes as u64, MAX_ANSWER);
    rt.write_all(&out[..n])?;
    rt.write_all(b"----\n")
}

// The pair that begins at `at`: where the next one begins.
fn turn(rt: &impl Print, text: &[u8], at: usize) -> io::Result<usize> {
    let mut store = [0u8; BITS];
    let given = read_numbers(text, at, &mut store);
    let left = read_line(text, given.next);
    let right = read_line(text, left.next);
    judge_pair(rt, given.words, left.bytes, right.bytes)?;
    Ok(right.next)
}

// All pairs.
fn judge_all(rt: &impl Print, text: &[u8]) -> io::Result<()> {
    let count = read(text, 0);
    let mut at = count.next;
    for _ in 0..count.size {
        at = turn(rt, text, at)?;
    }
    Ok(())
}

fn main(rt: HostRuntime) -> io::Result<()> {
    let mut text = [0u8; TEXT];
    let n = read_full(&mut rt.stdin(), &mut text)?;
    judge_all(&rt, &text[..n])
}
