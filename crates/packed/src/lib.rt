// Packed channels: half of each block. Blocks are Hermitian, so the entries (r, c) with r ≤ c decide them.
// Kept (twins): plain_words is its twin but for what is kept; both are two calls of form_calls, under the names of the C interface.
#![tactic(auto)]

ghost use Rattle.std.specs.Prelude.{◌≡◌};
ghost use Rattle.packed.specs.Packed.{pack_verdict, pack_result, unpack_verdict, unpack_result};

use channel::forms::Parts;
use form_calls::{read_form, write_form};
use verdict::Verdict;

// What is kept of a block.
const KEPT: Parts = Parts {
    half: true,
    plain: false,
};

// Write a channel with the entries (r, c) with r ≤ c alone, row after row; the records keep their order, with next indices to match.
// A refusal leaves the result as it was, and so are the words past a result.
pub fn pack_channel(channel: &[i64], res: &mut [i64]) -> Verdict
    ensures verdict { result ≡ pack_verdict channel.now res.old }
    ensures words { res.new ≡ pack_result channel.now res.old }
{
    write_form(channel, KEPT, res)
}

// Write the channel of packed words. A refusal leaves the result as it was, and so are the words past a result.
pub fn unpack_channel(packed: &[i64], res: &mut [i64]) -> Verdict
    ensures verdict { result ≡ unpack_verdict packed.now res.old }
    ensures words { res.new ≡ unpack_result packed.now res.old }
{
    read_form(packed, KEPT, res)
}
