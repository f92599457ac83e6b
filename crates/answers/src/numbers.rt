// Exact numbers as mathematics writes them: (1 − 2√2 + i − 5i√2)/16. The minus sign is U+2212 and the root U+221A, three bytes each.
ghost use Rattle.std.specs.Prelude.{◌≡◌, ◌≤◌};
ghost use Rattle.exact.specs.Exact.{number_of};
ghost use Rattle.scalar.specs.Calls.{value};
ghost use Rattle.text.specs.Inner.Puts.{Puts};
ghost use Rattle.answers.specs.Numbers.{is_zero, sign, sized, terms, is_sum, sum_text, numerator, denominator, number_text};
ghost use Rattle.answers.specs.Inner.Sums.{shown, count_of};

use exact::MAX_EXPONENT;
use scalar::Scalar;
use text::page::Writer;

// A term that is left out.
fn is_absent(z: i64) -> bool
    ensures { result ≡ is_zero z }
{
    z == 0
}

fn put_sign(out: &mut Writer<'_>, first: bool, z: i64)
    ensures { Puts out.old (sign first z) out.new }
{
    if first {
        if z < 0 {
            out.put_all(b"\xe2\x88\x92");
        }
    } else if z < 0 {
        out.put_all(b" \xe2\x88\x92 ");
    } else {
        out.put_all(b" + ");
    }
}

fn put_sized(out: &mut Writer<'_>, n: u64, unit: &[u8])
    ensures { Puts out.old (sized n unit.now) out.new }
{
    if (n == 1) & (0 < unit.len()) {
        out.put_all(unit);
    } else {
        out.put_decimal(n);
        out.put_all(unit);
    }
}

// A term, behind others or the first; nothing for zero.
fn put_term(out: &mut Writer<'_>, first: bool, z: i64, unit: &[u8])
    ensures { Puts out.old (shown first (record { coefficient = z; unit = unit.now })) out.new }
{
    if !is_absent(z) {
        put_sign(out, first, z);
        put_sized(out, z.unsigned_abs(), unit);
    }
}

// The terms that are not zero, or 0 where there are none.
fn put_sum(out: &mut Writer<'_>, n: [i64; 4])
    ensures { Puts out.old (sum_text (terms (number_of n))) out.new }
{
    let [w, x, y, z] = n;
    let f = is_absent(w);
    let g = f & is_absent(x);
    let h = g & is_absent(y);
    if h & is_absent(z) {
        out.put(b'0');
    } else {
        put_term(out, true, w, b"");
        put_term(out, f, x, b"\xe2\x88\x9a2");
        put_term(out, g, y, b"i");
        put_term(out, h, z, b"i\xe2\x88\x9a2");
    }
}

// 1 for a term that is there.
fn count_of(z: i64) -> u32
    ensures value { result ≡ count_of z }
    ensures few { result ≤ 1 }
{
    if is_absent(z) { 0 } else { 1 }
}

// Whether two terms or more are there.
fn is_sum(n: [i64; 4]) -> bool
    ensures { result ≡ is_sum (terms (number_of n)) }
{
    let [w, x, y, z] = n;
    1 < count_of(w) + count_of(x) + count_of(y) + count_of(z)
}

// A sum stands in brackets before a denominator.
fn put_numerator(out: &mut Writer<'_>, n: [i64; 4])
    ensures { Puts out.old (numerator (terms (number_of n))) out.new }
{
    if is_sum(n) {
        out.put(b'(');
        put_sum(out, n);
        out.put(b')');
    } else {
        put_sum(out, n);
    }
}

fn put_denominator(out: &mut Writer<'_>, e: u32)
    ensures { Puts out.old (denominator e) out.new }
{
    if e <= MAX_EXPONENT {
        out.put(b'/');
        out.put_decimal(1u64 << e);
    } else {
        out.put_all(b"/2^");
        out.put_decimal(e as u64);
    }
}

// Puts a number as it stands: what is not in lowest form is not brought to it.
pub fn put_number(out: &mut Writer<'_>, x: Scalar)
    ensures { Puts out.old (number_text (value x)) out.new }
{
    if x.e == 0 {
        put_sum(out, x.n);
    } else {
        put_numerator(out, x.n);
        put_denominator(out, x.e);
    }
}
