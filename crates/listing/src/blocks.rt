// The lines of a well-formed channel.
// Kept (facts): `write_listing` asks a judge whether the words are well formed, `list_circuit` has it from `circuit_channel`: a struct that the judge answers would judge once more there. The bound of w is asked where a record is walked.
// Kept (buffers): a record is the channel and a place in it, as `layout::read_entry` and the facts of the walk have it; a `channel::records::Block` has the words cut from there on, and the facts would be moved to them for each record.
ghost use Rattle.std.specs.Prelude.{◌≡◌, true, ◌*◌, ◌≤◌};
ghost use Rattle.algebra.specs.Lists.{concat_map};
ghost use Rattle.cells.specs.Cells.{cell_words};
ghost use Rattle.scalar.specs.Calls.{value};
ghost use Rattle.channel.specs.Layout.{channels, side, entry_at, block_at, dim_at, read_back};
ghost use Rattle.channel.specs.Inner.Shapes.{Entries, shape_at};
ghost use Rattle.channel.specs.WellFormed.{store_ok, well_formed};
ghost use Rattle.text.specs.Inner.Puts.{Puts};
ghost use Rattle.listing.specs.Listing.{spaced, first_line, store_line, entry_line, entry_lines, block_lines, listing};

use super::spaced::{put_natural, put_spaced};
use answers::states::put_store;
use channel::Shape;
use channel::layout::{follow, read_entry, read_store};
use scalar::Scalar;
use text::page::Writer;

fn put_store_line(out: &mut Writer<'_>, store: u64, m: u32)
    ensures { Puts out.old (store_line m store) out.new }
{
    out.put_all(b"store ");
    put_store(out, store, m);
    out.put(b'\n');
}

// The numerators and the exponent of a scalar, each after a space.
// Kept: four numbers, as `cell_words` of the specs lists them; a `for` over them would be shorter by a line or two, and need an invariant.
fn put_scalar(out: &mut Writer<'_>, x: Scalar)
    ensures { Puts out.old (concat_map spaced (cell_words (value x))) out.new }
{
    let n = x.n;
    put_spaced(out, n[0]);
    put_spaced(out, n[1]);
    put_spaced(out, n[2]);
    put_spaced(out, n[3]);
    put_natural(out, x.e as u64);
}

// The line of an entry that is not zero.
fn put_entry(out: &mut Writer<'_>, x: Scalar, row: usize, column: usize)
    ensures { Puts out.old (entry_line row column (value x)) out.new }
{
    if !x.is_zero() {
        out.put_decimal(row as u64);
        put_natural(out, column as u64);
        put_scalar(out, x);
        out.put(b'\n');
    }
}

// The entries of the record of side w at `place`, rows then columns.
fn put_entries(out: &mut Writer<'_>, s: &[i64], place: usize, w: usize)
    requires { (w ≤ 256) × Entries s.now place (w * w) }
    ensures { Puts out.old (entry_lines w (w * w) (entry_at (channels (dim_at s.now)) s.now place)) out.new }
{
    for k in 0..w * w {
        put_entry(out, read_entry(s, place, k), k / w, k % w);
    }
}

// The block of the record of side w at `place`: its store, then its entries.
fn put_block(out: &mut Writer<'_>, s: &[i64], place: usize, w: usize, m: u32)
    requires { (w ≤ 256) × ((store_ok s.now place m ≡ true) × Entries s.now place (w * w)) }
    ensures { Puts out.old (block_lines m w (block_at (channels (dim_at s.now)) s.now place)) out.new }
{
    put_store_line(out, read_store(s, place), m);
    put_entries(out, s, place, w);
}

// The header of a well-formed channel.
fn read_shape(s: &[i64]) -> Shape
    requires { well_formed s.now ≡ true }
    ensures { result ≡ shape_at s.now }
{
    let dim = s[0] as usize;
    let bits = s[1] as u32;
    let count = s[2] as usize;
    Shape { dim, bits, count }
}

fn put_first(out: &mut Writer<'_>, shape: Shape)
    ensures { Puts out.old (first_line shape.dim shape.bits shape.count) out.new }
{
    out.put_all(b"dim");
    put_natural(out, shape.dim as u64);
    out.put_all(b" cbits");
    put_natural(out, shape.bits as u64);
    out.put_all(b" blocks");
    put_natural(out, shape.count as u64);
    out.put(b'\n');
}

// The blocks of a well-formed channel, along its chain.
fn put_blocks(out: &mut Writer<'_>, s: &[i64], shape: Shape)
    requires { (well_formed s.now ≡ true) × (shape ≡ shape_at s.now) }
    ensures { Puts out.old (concat_map (block_lines shape.bits (side shape.dim)) (read_back s.now)) out.new }
{
    let w = shape.dim * shape.dim;
    let mut place = follow(s, 3);
    for _ in 0..shape.count {
        put_block(out, s, place, w, shape.bits);
        place = follow(s, place);
    }
}

// The lines of a channel.
pub fn put_channel(out: &mut Writer<'_>, s: &[i64])
    requires { well_formed s.now ≡ true }
    ensures { Puts out.old (listing s.now) out.new }
{
    let shape = read_shape(s);
    put_first(out, shape);
    put_blocks(out, s, shape);
}
