// A space, then a number.
// Kept (twins): numbers of i64 and of u64: no type that a writer puts holds both, and a trait over them would be more than the two lines.
ghost use Rattle.std.specs.Prelude.{pos};
ghost use Rattle.text.specs.Inner.Puts.{Puts};
ghost use Rattle.listing.specs.Listing.{spaced};

use text::page::Writer;

pub fn put_spaced(out: &mut Writer<'_>, z: i64)
    ensures { Puts out.old (spaced z) out.new }
{
    out.put(b' ');
    out.put_signed(z);
}

pub fn put_natural(out: &mut Writer<'_>, n: u64)
    ensures { Puts out.old (spaced (pos n)) out.new }
{
    out.put(b' ');
    out.put_decimal(n);
}
