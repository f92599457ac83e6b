// A line that the text itself measures: how many bytes it has, then the bytes and a newline.
// Kept (buffers, twins): a place in the text, and a value with the next one, as in words.rt.
ghost use Rattle.std.specs.Prelude.{◌≡◌};
ghost use Rattle.replay.specs.Lines.{line_bytes, behind_line};

use crate::numeral::read;
use crate::words::fitting;

// The bytes, and where the next number of the text begins.
#[derive(Clone, Copy)]
pub struct Line<'a> {
    pub bytes: &'a [u8],
    pub next: usize,
}

// The line whose size is the number at `at`, or as much of it as there is.
pub fn read_line(text: &[u8], at: usize) -> Line<'_>
    ensures bytes { result.bytes.now ≡ line_bytes text.now at }
    ensures next { result.next ≡ behind_line text.now at }
{
    let size = read(text, at);
    let n = text.len();
    let start = fitting(size.next as u64, n);
    let end = start + fitting(size.size, n - start);
    Line {
        bytes: &text[start..end],
        next: end + fitting(1, n - end),
    }
}
