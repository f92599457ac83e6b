// A text of decimal numbers, read into lent room.
// Kept (buffers): there is no heap: the numbers go to lent room, and the answer says how many of its words they are.
ghost use Rattle.std.specs.Prelude.{◌≡◌, true, map, ◌≤◌, length};
ghost use Rattle.std.proofs.lemmas.List.Edits.{sets};
ghost use Rattle.algebra.specs.Lists.{every};
ghost use Rattle.text.specs.Decimal.{value, is_number};
ghost use Rattle.circuit_text.specs.Text.{body_length, pieces};

use text::bytes::is_blank;
use text::number::number_in;

// The length of a text without the newline at its end.
pub fn body_length(text: &[u8]) -> usize
    ensures { result ≡ body_length text.now }
{
    match text {
        [body @ .., b'\n'] => body.len(),
        _ => text.len(),
    }
}

// Reads the numbers of a text with no newline at its end into room for all of them, and says how many there are.
pub fn read_numbers(text: &[u8], numbers: &mut [u32]) -> usize
    requires { (every is_number (pieces text.now) ≡ true) × (length (pieces text.now) ≤ length numbers.old) }
    ensures count { result ≡ length (pieces text.now) }
    ensures room { numbers.new ≡ sets numbers.old 0 (map value (pieces text.now)) }
{
    let mut count = 0;
    for piece in text.split(|&b| is_blank(b)) {
        numbers[count] = number_in(piece).unwrap();
        count += 1;
    }
    count
}
