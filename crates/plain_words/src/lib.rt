// Channels whose blocks have no √2 part, with n0 and n2 alone for each entry.
// Kept (twins): packed is its twin but for what is kept; both are two calls of form_calls, under the names of the C interface.
#![tactic(auto)]

ghost use Rattle.std.specs.Prelude.{◌≡◌};
ghost use Rattle.plain_words.specs.Plain.{plain_write_verdict, plain_write_result, plain_read_verdict, plain_read_result};

use channel::forms::Parts;
use form_calls::{read_form, write_form};
use verdict::Verdict;

// What is kept of a block.
const KEPT: Parts = Parts {
    half: false,
    plain: true,
};

// Write a channel with n0 and n2 alone for each entry; the records keep their order, with next indices to match.
// A refusal leaves the result as it was, and so are the words past a result.
pub fn write_plain(channel: &[i64], res: &mut [i64]) -> Verdict
    ensures verdict { result ≡ plain_write_verdict channel.now res.old }
    ensures words { res.new ≡ plain_write_result channel.now res.old }
{
    write_form(channel, KEPT, res)
}

// Write the channel of such words. A refusal leaves the result as it was, and so are the words past a result.
pub fn read_plain(words: &[i64], res: &mut [i64]) -> Verdict
    ensures verdict { result ≡ plain_read_verdict words.now res.old }
    ensures words { res.new ≡ plain_read_result words.now res.old }
{
    read_form(words, KEPT, res)
}
