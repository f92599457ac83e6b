// Cases of compare_list.
// Kept (buffers): the places in the text are those of crate replay, which says why.
// Kept (together): the buffers are those that compare_list is lent one by one; work_list::serving says why.
ghost use Rattle.std.specs.Prelude.{◌≡◌};
ghost use Rattle.replay_cases.specs.Lists.{with_reply, called, lent, list_case};

use circuit::limits::Limits;
use compare_list::compare_list;
use pair_list::PairList;
use replay::numeral::{low, read};
use replay::record::Record;
use replay::sum::checksum;
use replay::words::{fitting, mark, read_numbers};
use verdict::{Refusal, index, number};

// Room for the words and the stores of pairs, for the words of a channel and for work, for answers and for their scalars.
const WORDS: usize = 1600;

const STORES: usize = 100;

const BUFFER: usize = 2600;

const ANSWERS: usize = 240;

const SCALARS: usize = 340;

// Verdict, index and total; the checksums of both channels' words, of the work and of the scalars; each word of the answers.
fn check_reply(
    seen: Record,
    text: &[u8],
    reply: Result<u64, Refusal>,
    left: &[i64],
    right: &[i64],
    work: &[i64],
    scalars: &[i64],
    answers: &[u64],
) -> Record
    ensures { result ≡ with_reply text.now seen reply left.now right.now work.now scalars.now answers.now }
{
    let numbers = [
        u64::from(number(&reply)),
        index(&reply) as u64,
        reply.unwrap_or(0),
        checksum(left),
        checksum(right),
        checksum(work),
        checksum(scalars),
    ];
    seen.numbers(text, &numbers).numbers(text, answers)
}

// The call on the pairs at `at`, behind the high and the low 32 bits of the allowance.
fn called(
    text: &[u8],
    at: usize,
    count: usize,
    left: &mut [i64],
    right: &mut [i64],
    work: &mut [i64],
    answers: &mut [u64],
    scalars: &mut [i64],
) -> Record
    ensures { result ≡ called text.now at count left.old right.old work.old answers.old scalars.old }
{
    let mut words = [0u32; WORDS];
    let mut stores = [0u8; STORES];
    let high = read(text, at);
    let rest = read(text, high.next);
    let pairs = read_numbers(text, rest.next, &mut words);
    let bytes = read_numbers(text, pairs.next, &mut stores);
    let allowance = u64::from(low(high.size)) * 4294967296 + u64::from(low(rest.size));
    let list = PairList {
        count,
        words: pairs.words,
        stores: bytes.words,
    };
    let reply = compare_list(
        list,
        Limits::defaults(),
        allowance,
        left,
        right,
        work,
        answers,
        scalars,
    );
    check_reply(
        Record::begin(bytes.next),
        text,
        reply,
        left,
        right,
        work,
        scalars,
        answers,
    )
}

// How many pairs there are, and the lengths of the five buffers; then the pairs.
fn lent(
    text: &[u8],
    at: usize,
    left: &mut [i64],
    right: &mut [i64],
    work: &mut [i64],
    answers: &mut [u64],
    scalars: &mut [i64],
) -> Record
    ensures { result ≡ lent text.now at left.old right.old work.old answers.old scalars.old }
{
    let count = read(text, at);
    let first = read(text, count.next);
    let second = read(text, first.next);
    let third = read(text, second.next);
    let fourth = read(text, third.next);
    let fifth = read(text, fourth.next);
    let l = fitting(first.size, left.len());
    let r = fitting(second.size, right.len());
    let w = fitting(third.size, work.len());
    let a = fitting(fourth.size, answers.len());
    let s = fitting(fifth.size, scalars.len());
    called(
        text,
        fifth.next,
        count.size as usize,
        &mut left[..l],
        &mut right[..r],
        &mut work[..w],
        &mut answers[..a],
        &mut scalars[..s],
    )
}

// The same with the buffers that it lends, marked before but for the answers, each word of which is 7.
#[inline(never)]
pub fn list_case(text: &[u8], at: usize) -> Record
    ensures { result ≡ list_case text.now at }
{
    let mut left = [0i64; BUFFER];
    let mut right = [0i64; BUFFER];
    let mut work = [0i64; BUFFER];
    let mut answers = [7u64; ANSWERS];
    let mut scalars = [0i64; SCALARS];
    mark(&mut left);
    mark(&mut right);
    mark(&mut work);
    mark(&mut scalars);
    lent(
        text,
        at,
        &mut left,
        &mut right,
        &mut work,
        &mut answers,
        &mut scalars,
    )
}
