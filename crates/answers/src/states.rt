// States of qubits as kets and bras, and stores as bits. The angle brackets are U+27E8 and U+27E9, three bytes each.
ghost use Rattle.std.specs.Prelude.{◌≡◌, ◌/◌, ◌%◌, ◌^◌};
ghost use Rattle.text.specs.Inner.Puts.{Puts};
ghost use Rattle.answers.specs.States.{store_bits, binary, outer, entry_text};

use text::page::Writer;

// The bits of a store from bit 0 on, or "-" where there are none.
pub fn put_store(out: &mut Writer<'_>, store: u64, m: u32)
    ensures { Puts out.old (store_bits m store) out.new }
{
    if m == 0 {
        out.put(b'-');
        return;
    }
    let mut rest = store;
    for _ in 0..m {
        out.put(b'0' + (rest % 2) as u8);
        rest /= 2;
    }
}

// Kept: `high` and `low` part a number at one place, by the same test; `checked_shr` would serve `high` alone.
// The quotient by 2^k, whatever k is.
fn high(x: usize, k: u32) -> usize
    ensures { result ≡ x / 2 ^ k }
{
    if k < usize::BITS {
        return x >> k;
    }
    0
}

// The rest.
fn low(x: usize, k: u32) -> usize
    ensures { result ≡ x % 2 ^ k }
{
    if k < usize::BITS {
        return x % (1usize << k);
    }
    x
}

// n binary digits, the most significant first.
fn put_binary(out: &mut Writer<'_>, n: u32, x: usize)
    ensures { Puts out.old (binary n x) out.new }
{
    for k in (0..n).rev() {
        out.put(b'0' + (high(x, k) % 2) as u8);
    }
}

// |x⟩⟨y|
fn put_outer(out: &mut Writer<'_>, n: u32, x: usize, y: usize)
    ensures { Puts out.old (outer n x y) out.new }
{
    out.put(b'|');
    put_binary(out, n, x);
    out.put_all(b"\xe2\x9f\xa9\xe2\x9f\xa8");
    put_binary(out, n, y);
    out.put(b'|');
}

// Row and column of a Choi block on n qubits: from which input to which output.
pub fn put_bra_ket(out: &mut Writer<'_>, n: u32, row: usize, column: usize)
    ensures { Puts out.old (entry_text n row column) out.new }
{
    out.put_all(b"from input ");
    put_outer(out, n, low(row, n), low(column, n));
    out.put_all(b" to output ");
    put_outer(out, n, high(row, n), high(column, n));
}
