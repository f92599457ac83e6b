// What a program is given to read.
ghost use Rattle.std.specs.Prelude.{◌≡◌, ◌≤◌, length, take, IfOk, IfSome};

use std::io::{self, Read};

// Reads until the text is full or the input ends: how many bytes there were.
pub fn read_full<R: Read>(input: &mut R, text: &mut [u8]) -> io::Result<usize>
    ensures fits { IfOk result (λ n. n ≤ length text.new) }
    ensures bytes { IfOk result (λ n. IfSome (R.remaining input.old) (λ xs. take n text.new ≡ take (length text.old) xs)) }
{
    let mut n = 0;
    // Kept: each read says how many bytes came, so there is no range to go over.
    while n < text.len() {
        let more = input.read(&mut text[n..])?;
        if more == 0 {
            break;
        }
        n += more;
    }
    Ok(n)
}
