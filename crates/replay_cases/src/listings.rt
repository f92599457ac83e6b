// Cases of the program that lists a channel.
// Kept (together): a text, a place and lent buffers, as in reading.rt.
// Kept (buffers): the places in the text are those of crate replay, which says why; `count` is compared as a number too, and stands beside the page as `list` answers it.
ghost use Rattle.std.specs.Prelude.{◌≡◌};
ghost use Rattle.text.specs.Page.{page};
ghost use Rattle.replay.specs.Record.{begun};
ghost use Rattle.replay_cases.specs.Circuits.{with_said, listed, listing_case};

use listing::{MAX_LISTING, list};
use replay::lines::read_line;
use replay::record::Record;
use replay::words::fitting;

// The lengths of the buffers that the program lends.
const RESULT: usize = 5200;

const WORK: usize = 2000;

// The first `count` bytes that were written, held against the record.
fn said(text: &[u8], at: usize, out: &[u8], count: usize) -> Record
    ensures { result ≡ with_said text.now (begun at) (page out.now count) }
{
    let seen = Record::begin(at).number(text, count as u64);
    let n = fitting(count as u64, out.len());
    seen.bytes(text, &out[..n])
}

// The length of a text, the text and a newline; the length of the answer and the answer.
fn listed(text: &[u8], at: usize, res: &mut [i64], work: &mut [i64], out: &mut [u8]) -> Record
    ensures { result ≡ listed text.now at res.old work.old out.old }
{
    let line = read_line(text, at);
    let count = list(line.bytes, res, work, out);
    said(text, line.next, out, count)
}

// The same with the buffers that it lends.
#[inline(never)]
pub fn listing_case(text: &[u8], at: usize) -> Record
    ensures { result ≡ listing_case text.now at }
{
    let mut result = [0i64; RESULT];
    let mut work = [0i64; WORK];
    let mut page = [0u8; MAX_LISTING];
    listed(text, at, &mut result, &mut work, &mut page)
}
