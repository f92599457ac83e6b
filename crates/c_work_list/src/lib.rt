// The call of the C interface on lists of pairs.
// Kept (together): C lends the buffers one by one.
#![tactic(auto)]

ghost use Rattle.std.specs.Prelude.{◌≡◌};
ghost use Rattle.std.specs.Result.{result_unwrap_or};
ghost use Rattle.verdict.specs.Verdict.{verdict_number, verdict_index};
ghost use Rattle.c_circuits.specs.Circuits.{limits_of};
ghost use Rattle.compare_list.specs.Call.{reply_of, answers_after, scalars_after, cleared};

use c_circuits::read_limits;
use c_scalars::words::report;
use pair_list::PairList;

// Compares the pairs of a list under one allowance: the verdict's number, its index in `index`, and the sum of what is spent in `total`, 0 where the list is refused.
pub fn compare_list(
    count: usize,
    words: &[u32],
    stores: &[u8],
    limits: &[u64; 6],
    allowance: u64,
    left: &mut [i64],
    right: &mut [i64],
    work: &mut [i64],
    answers: &mut [u64],
    scalars: &mut [i64],
    total: &mut u64,
    index: &mut u64,
) -> u32
    ensures value { result ≡
        verdict_number (reply_of count words.now stores.now (limits_of limits.now) allowance left.old right.old work.old answers.old scalars.old) }
    ensures index_after { index.new ≡
        verdict_index (reply_of count words.now stores.now (limits_of limits.now) allowance left.old right.old work.old answers.old scalars.old) }
    ensures total_after { total.new ≡ result_unwrap_or
        (reply_of count words.now stores.now (limits_of limits.now) allowance left.old right.old work.old answers.old scalars.old) 0 }
    ensures answers_after { answers.new ≡
        answers_after count words.now stores.now (limits_of limits.now) allowance left.old right.old work.old answers.old scalars.old }
    ensures scalars_after { scalars.new ≡
        scalars_after count words.now stores.now (limits_of limits.now) allowance left.old right.old work.old answers.old scalars.old }
    ensures left_after { left.new ≡
        cleared count words.now stores.now (limits_of limits.now) allowance left.old right.old work.old answers.old scalars.old left.old }
    ensures right_after { right.new ≡
        cleared count words.now stores.now (limits_of limits.now) allowance left.old right.old work.old answers.old scalars.old right.old }
    ensures work_after { work.new ≡
        cleared count words.now stores.now (limits_of limits.now) allowance left.old right.old work.old answers.old scalars.old work.old }
{
    let list = PairList {
        count,
        words,
        stores,
    };
    let l = read_limits(limits);
    let reply = compare_list::compare_list(list, l, allowance, left, right, work, answers, scalars);
    *total = reply.unwrap_or(0);
    report(&reply, index)
}
