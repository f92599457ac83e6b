// compare_list: pairs of circuits compared in list order, under one allowance of multiply terms.
// Kept (together): the lent buffers, as in `work_list::serving`.
#![tactic(auto)]

pub mod words;

ghost use Rattle.std.specs.Prelude.{◌≡◌, length};
ghost use Rattle.std.proofs.lemmas.List.Edits.{sets};
ghost use Rattle.algebra.specs.Lists.{total, concat_map};
ghost use Rattle.pair_list.specs.Pairs.{pairs_of};
ghost use Rattle.work_list.specs.Serving.{charge, lent, answers_to};
ghost use Rattle.compare_list.specs.Words.{answer_words, entry_words};
ghost use Rattle.compare_list.specs.Call.{list_verdict, reply_of, answers_after, scalars_after, cleared};
ghost use Rattle.compare_list.specs.Inner.Due.{Listed};

use self::words::{ANSWER, SCALARS, put};
use circuit::limits::Limits;
use pair_list::{PairList, Place};
use verdict::{Refusal, Verdict};
use work_list::serving::serve;

// The most pairs of a list.
pub const MAX_PAIRS: usize = 32;

// Whether there are few enough pairs, all of them are there, and their answers have places.
fn judge_list(list: PairList, answers: usize, scalars: usize) -> Verdict
    ensures { let l = list.entry in result ≡ list_verdict l.count l.words.now l.stores.now answers scalars }
{
    if MAX_PAIRS < list.count {
        return Err(Refusal::TooManyPairs);
    }
    list.judge()?;
    if !((list.count * ANSWER <= answers) & (list.count * SCALARS <= scalars)) {
        return Err(Refusal::ShortBuffer);
    }
    Ok(())
}

// Answers all pairs in their order, in buffers that are zero before and after: how much is spent.
fn serve_all(
    list: PairList,
    limits: Limits,
    allowance: u64,
    left: &mut [i64],
    right: &mut [i64],
    work: &mut [i64],
    answers: &mut [u64],
    scalars: &mut [i64],
) -> u64
    requires { Listed list.count list.words.now list.stores.now (length answers.old) (length scalars.old) left.old right.old work.old }
    ensures value { let l = list.entry in result ≡ total charge (answers_to (lent limits left.old right.old work.old allowance) (pairs_of l.words.now l.stores.now l.count)) }
    ensures answers_after { let l = list.entry in answers.new ≡ sets answers.old 0
        (concat_map answer_words (answers_to (lent limits left.old right.old work.old allowance) (pairs_of l.words.now l.stores.now l.count))) }
    ensures scalars_after { let l = list.entry in scalars.new ≡ sets scalars.old 0
        (concat_map entry_words (answers_to (lent limits left.old right.old work.old allowance) (pairs_of l.words.now l.stores.now l.count))) }
    ensures left_unchanged { left.new ≡ left.old }
    ensures right_unchanged { right.new ≡ right.old }
    ensures work_unchanged { work.new ≡ work.old }
{
    let mut place = Place::default();
    let mut spent: u64 = 0;
    for i in 0..list.count {
        let pair = list.pair_at(place);
        let answer = serve(pair, limits, allowance, spent, left, right, work);
        put(answers, scalars, i, answer);
        spent += answer.charge();
        place = list.behind(place);
    }
    spent
}

// Compares the pairs of a list in their order: a pair whose circuit is refused keeps that refusal, the left circuit's first, and costs nothing; any other is passed over exactly when its cost added to what is spent exceeds the
// allowance; else it has compare's answer. A list that is refused leaves every buffer as it was; else the lent words of both channels and of the work end as zero.
pub fn compare_list(
    list: PairList,
    limits: Limits,
    allowance: u64,
    left: &mut [i64],
    right: &mut [i64],
    work: &mut [i64],
    answers: &mut [u64],
    scalars: &mut [i64],
) -> Result<u64, Refusal>
    ensures reply { let l = list.entry in result ≡
        reply_of l.count l.words.now l.stores.now limits allowance left.old right.old work.old answers.old scalars.old }
    ensures answers { let l = list.entry in answers.new ≡
        answers_after l.count l.words.now l.stores.now limits allowance left.old right.old work.old answers.old scalars.old }
    ensures scalars { let l = list.entry in scalars.new ≡
        scalars_after l.count l.words.now l.stores.now limits allowance left.old right.old work.old answers.old scalars.old }
    ensures left { let l = list.entry in left.new ≡
        cleared l.count l.words.now l.stores.now limits allowance left.old right.old work.old answers.old scalars.old left.old }
    ensures right { let l = list.entry in right.new ≡
        cleared l.count l.words.now l.stores.now limits allowance left.old right.old work.old answers.old scalars.old right.old }
    ensures work { let l = list.entry in work.new ≡
        cleared l.count l.words.now l.stores.now limits allowance left.old right.old work.old answers.old scalars.old work.old }
{
    judge_list(list, answers.len(), scalars.len())?;
    left.fill(0);
    right.fill(0);
    work.fill(0);
    Ok(serve_all(list, limits, allowance, left, right, work, answers, scalars))
}
