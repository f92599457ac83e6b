// What the program writes: a channel's listing, or the line of a refusal.
// Kept (buffers): the bytes lie in the lent room, and the answer says how many they are; a slice of them would hold that loan.
ghost use Rattle.std.specs.Prelude.{◌≡◌};
ghost use Rattle.text.specs.Page.{page, write};
ghost use Rattle.listing.specs.Listing.{listing_of, refusal_line, input_line};

use super::blocks::put_channel;
use super::spaced::put_natural;
use channel::well_formed::well_formed;
use text::page::Writer;

// Puts the listing of a channel into `out`, and answers how many bytes it has. Words that are no channel have none.
pub fn write_listing(out: &mut [u8], channel: &[i64]) -> usize
    ensures { page out.new result ≡ write (page out.old 0) (listing_of channel.now) }
{
    if !well_formed(channel) {
        return 0;
    }
    let mut w = Writer::new(out);
    put_channel(&mut w, channel);
    w.at
}

// Puts the line of a refusal into `out`: its number and its index.
// Kept: each pair of numbers has its line; a `Refusal` would take fewer of them.
pub fn write_refusal(out: &mut [u8], number: u64, index: u64) -> usize
    ensures { page out.new result ≡ write (page out.old 0) (refusal_line number index) }
{
    let mut w = Writer::new(out);
    w.put_all(b"refused");
    put_natural(&mut w, number);
    put_natural(&mut w, index);
    w.put(b'\n');
    w.at
}

// Puts the line for a text that is no input into `out`.
pub fn write_no_input(out: &mut [u8]) -> usize
    ensures { page out.new result ≡ write (page out.old 0) input_line }
{
    let mut w = Writer::new(out);
    w.put_all(b"refused input\n");
    w.at
}
