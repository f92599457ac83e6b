// The bytes of an answer on two texts: a first line for scripts, then lines for people, put into lent room.
// Kept (buffers): the number beside a label is put behind it, and the room beside a gate's words is the room lent for all gates: neither is a length of the bytes, or a place in them.
// Kept (together): a writer with both counts, as in `qasm_writer::printer`; `put_different` takes them apart, one for `put_after` and one for `put_bra_ket`.
#![tactic(auto)]

ghost use Rattle.std.specs.Prelude.{◌≡◌, ◌++◌, Err};
ghost use Rattle.scalar.specs.Calls.{value};
ghost use Rattle.text.specs.Decimal.{decimal};
ghost use Rattle.text.specs.Inner.Puts.{Puts};
ghost use Rattle.answers.specs.Numbers.{number_text};
ghost use Rattle.answer_lines.specs.Lines.{same_text, dimensions_text, after_storing, different_text, opening, first_line, gate_end, place_text, room_text, refused_text};

use answers::numbers::put_number;
use answers::reasons::put_reason;
use answers::states::{put_bra_ket, put_store};
use compare::Place;
use qasm_writer::printer::put_gates;
use scalar::Scalar;
use text::page::Writer;
use verdict::Refusal;

// Why a text or its circuit is refused: the byte at fault with its line and column, or the place of the gate at fault; how many gates a text has that has too many. Each is 0 where there is none.
// Kept: the C interface answers these numbers, and the first line shows the position, 0 where there is none; an Option would be turned back into that 0 there, and asked for here where 0 is.
#[derive(Clone, Copy)]
pub struct Fault {
    pub refusal: Refusal,
    pub position: usize,
    pub line: usize,
    pub column: usize,
    pub gates: usize,
}

// Which text: the left or the right one of two, or the only one.
#[derive(Clone, Copy)]
pub enum Which {
    Left,
    Right,
    Only,
}

pub fn put_same(out: &mut Writer<'_>)
    ensures { Puts out.old same_text out.new }
{
    out.put_all(
        b"same\nThe two circuits do the same: their channels are equal at every store, row and column.\n",
    );
}

// A number behind these bytes.
fn put_labelled(out: &mut Writer<'_>, label: &[u8], n: u64)
    ensures { Puts out.old (label.now ++ decimal n) out.new }
{
    out.put_all(label);
    out.put_decimal(n);
}

// The counts of both circuits.
pub fn put_dimensions(out: &mut Writer<'_>, n: u32, m: u32, n2: u32, m2: u32)
    ensures { Puts out.old (dimensions_text n m n2 m2) out.new }
{
    put_labelled(out, b"dimensions\nqubits: ", n as u64);
    put_labelled(out, b" against ", n2 as u64);
    put_labelled(out, b"; classical bits: ", m as u64);
    put_labelled(out, b" against ", m2 as u64);
    out.put(b'\n');
}

fn put_after(out: &mut Writer<'_>, m: u32, store: u64)
    ensures { Puts out.old (after_storing m store) out.new }
{
    if m != 0 {
        out.put_all(b"after storing ");
        put_store(out, store, m);
        out.put_all(b", ");
    }
}

fn put_valued(out: &mut Writer<'_>, label: &[u8], x: Scalar)
    ensures { Puts out.old (label.now ++ number_text (value x)) out.new }
{
    out.put_all(label);
    put_number(out, x);
}

// The first unequal entry: its place, and both numbers.
pub fn put_different(
    out: &mut Writer<'_>,
    qubits: u32,
    bits: u32,
    place: Place,
    left: Scalar,
    right: Scalar,
)
    ensures { Puts out.old (different_text qubits bits place left right) out.new }
{
    out.put_all(b"different\n");
    put_after(out, bits, place.store);
    put_bra_ket(out, qubits, place.row, place.col);
    put_valued(out, b": ", left);
    put_valued(out, b" against ", right);
    out.put(b'\n');
}

fn opening(which: Which) -> &'static [u8]
    ensures { result.now ≡ opening which }
{
    match which {
        Which::Left => b"left refused ",
        Which::Right => b"right refused ",
        Which::Only => b"refused ",
    }
}

fn put_first(out: &mut Writer<'_>, which: Which, refusal: Refusal, position: usize)
    ensures { Puts out.old (first_line which (Err refusal) position) out.new }
{
    out.put_all(opening(which));
    out.put_decimal(refusal.number() as u64);
    put_labelled(out, b" ", refusal.index() as u64);
    put_labelled(out, b" ", position as u64);
    out.put(b'\n');
}

// Kept: no gate is no words, as `gate_end` of the specs has it; an Option of a slice would have two forms of none.
fn put_gate_end(out: &mut Writer<'_>, gate: &[u32])
    ensures { Puts out.old (gate_end gate.now) out.new }
{
    if gate.len() == 0 {
        out.put(b'\n');
    } else {
        out.put_all(b": ");
        put_gates(out, gate);
    }
}

fn put_place(out: &mut Writer<'_>, line: usize, column: usize, gate: &[u32])
    ensures { Puts out.old (place_text line column gate.now) out.new }
{
    if line != 0 {
        put_labelled(out, b"line ", line as u64);
        put_labelled(out, b", column ", column as u64);
        put_gate_end(out, gate);
    }
}

fn put_room(out: &mut Writer<'_>, gates: usize, room: usize)
    ensures { Puts out.old (room_text gates room) out.new }
{
    if gates != 0 {
        out.put_decimal(gates as u64);
        put_labelled(out, b" gates, and room for ", room as u64);
        out.put(b'\n');
    }
}

// Kept: `gate` is empty where there is none, as in `put_gate_end`.
// A refusal; `gate` has the words of the gate at fault, if there is one, and `room` says for how many gates room is lent.
pub fn put_refused(out: &mut Writer<'_>, which: Which, r: Fault, gate: &[u32], room: usize)
    ensures { Puts out.old (refused_text which r gate.now room) out.new }
{
    put_first(out, which, r.refusal, r.position);
    put_place(out, r.line, r.column, gate);
    put_room(out, r.gates, room);
    put_reason(out, Err(r.refusal));
    out.put(b'\n');
}
