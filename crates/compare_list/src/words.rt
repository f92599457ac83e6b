// The words of an answer to a pair.
// Kept (buffers): answer i stands among the others, and its scalars among theirs; the places of both are found by its number.
ghost use Rattle.std.specs.Prelude.{◌≡◌, ◌+◌, ◌*◌, ◌≤◌, length};
ghost use Rattle.std.proofs.lemmas.List.Edits.{sets};
ghost use Rattle.compare_list.specs.Words.{reply_number, cost_of, entry_of, refusal_of, refusal_words, answer_size, scalars_size, answer_words, entry_words};

use c_channels::{difference, finding_number, place_words, scalar_words};
use c_scalars::words::replies::{LEFT_REFUSED, RIGHT_REFUSED};
use compare::Difference;
use verdict::Refusal;
use work_list::Answer;

// The words of an answer.
pub const ANSWER: usize = 7;

// The words of its two scalars.
pub const SCALARS: usize = 10;

// The reply of a pair that is passed over.
// Kept: a number of the C interface, beside those of `c_scalars::words::replies`; a list alone answers it.
const PASSED_OVER: u32 = 107;

fn reply_number(answer: Answer) -> u32
    ensures { result ≡ reply_number answer }
{
    match answer {
        Answer::LeftRefused(_) => LEFT_REFUSED,
        Answer::RightRefused(_) => RIGHT_REFUSED,
        Answer::PassedOver { .. } => PASSED_OVER,
        Answer::Compared { comparison, .. } => finding_number(&comparison),
    }
}

fn cost_of(answer: Answer) -> u64
    ensures { result ≡ cost_of answer }
{
    match answer {
        Answer::LeftRefused(_) | Answer::RightRefused(_) => 0,
        Answer::PassedOver { cost } | Answer::Compared { cost, .. } => cost,
    }
}

// The entry that differs, if one does.
fn entry_of(answer: Answer) -> Option<Difference>
    ensures { result ≡ entry_of answer }
{
    match answer {
        Answer::Compared { comparison, .. } => difference(&comparison),
        _ => None,
    }
}

fn refusal_of(answer: Answer) -> Option<Refusal>
    ensures { result ≡ refusal_of answer }
{
    match answer {
        Answer::LeftRefused(refusal) | Answer::RightRefused(refusal) => Some(refusal),
        Answer::PassedOver { .. } => None,
        Answer::Compared { comparison, .. } => comparison.err(),
    }
}

// A refusal's number and index; zeros where there is none.
fn refusal_words(refusal: Option<Refusal>) -> [u64; 2]
    ensures { result ≡ refusal_words refusal }
{
    match refusal {
        Some(r) => [r.number() as u64, r.index() as u64],
        None => [0; 2],
    }
}

fn answer_words(answer: Answer) -> [u64; ANSWER]
    ensures { result ≡ answer_words answer }
{
    let reply = reply_number(answer) as u64;
    let [store, row, column] = place_words(entry_of(answer));
    let [number, index] = refusal_words(refusal_of(answer));
    [reply, cost_of(answer), store, row, column, number, index]
}

// Writes answer i and its scalars into their places.
pub fn put(answers: &mut [u64], scalars: &mut [i64], i: usize, answer: Answer)
    requires { (i * answer_size + answer_size ≤ length answers.old) × (i * scalars_size + scalars_size ≤ length scalars.old) }
    ensures answers_after { answers.new ≡ sets answers.old (i * answer_size) (answer_words answer) }
    ensures scalars_after { scalars.new ≡ sets scalars.old (i * scalars_size) (entry_words answer) }
{
    answers[i * ANSWER..(i + 1) * ANSWER].copy_from_slice(&answer_words(answer));
    scalars[i * SCALARS..(i + 1) * SCALARS].copy_from_slice(&scalar_words(entry_of(answer)));
}
