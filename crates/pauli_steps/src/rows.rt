// The rows of p·1 + q·A, where the axis A has a mask form: row r has p in column r, and q times a power of i in the column with the bits x flipped.
// Kept (kinds): t counts quarter turns, as in the words of a program.
// Kept (facts): `Level` is asked by `axis_rows`; a Pair has no range, and one with a range would be made for each call of axis_rows.
ghost use Rattle.std.specs.Prelude.{◌≡◌, ◌<◌};
ghost use Rattle.exact.specs.Exact.{number_of, list_of};
ghost use Rattle.exact.specs.Inner.Sizes.{Within, room_numerator};
ghost use Rattle.pauli_nodes.specs.Nodes.{turned};
ghost use Rattle.pauli_nodes.specs.Inner.Masks.{mask};
ghost use Rattle.pauli_steps.specs.Inner.Rows.{axis_entry, Level, turned_number, is_even, rows_of, rows_about};

use super::coefficients::Pair;
use exact::numerators::neg4;
use gate::rows::Row;
use pauli_words::masks::Mask;

// What an axis does: the bits that it flips in a row's number, which may be any, those that it signs, and a power of i.
#[derive(Clone, Copy)]
pub struct Axis {
    pub flips: usize,
    pub signs: usize,
    pub turns: u32,
    pub ghost in_range: { (signs < 32) × (turns < 4) },
}

impl From<Mask> for Axis {
    ghost from_gives = { λ m axis. mask axis.flips axis.signs axis.turns ≡ m };

    fn from(m: Mask) -> Axis {
        Axis {
            flips: m.flips(),
            signs: m.signs(),
            turns: m.turns(),
        }
    }
}

impl Axis {
    // The quarter turns of the entry in row r.
    #[inline(always)]
    pub fn turns_in(self, r: usize) -> u32
        ensures { (result < 4) × (turned result ≡ axis_entry (mask self.flips self.signs self.turns) r) }
    {
        (self.turns + 2 * ((self.signs & (r ^ self.flips)).count_ones() % 2)) % 4
    }
}

// i times the numerators.
#[inline(always)]
fn times_i(x: [i64; 4]) -> [i64; 4]
    requires { Within room_numerator (number_of x) }
    ensures { result ≡ list_of (turned_number x 1) }
{
    [-x[2], -x[3], x[0], x[1]]
}

// Kept: inlined, as are the functions that it calls here, so that a caller's constants are turned where they are written.
// i^t times the numerators.
#[inline(always)]
pub fn turned4(x: [i64; 4], t: u32) -> [i64; 4]
    requires { (t < 4) × Within room_numerator (number_of x) }
    ensures { result ≡ list_of (turned_number x t) }
{
    match t {
        0 => x,
        1 => times_i(x),
        2 => neg4(x),
        _ => neg4(times_i(x)),
    }
}

// An operator about an axis by its rows, of which there are two: `low` where a row's partner has an even number of the signed bits, and `high` where it has an odd one.
#[derive(Clone, Copy)]
pub struct Rows {
    pub signs: usize,
    // The bits that take a row to its partner.
    pub flips: usize,
    pub low: Row,
    pub high: Row,
    // The power of two that all entries are over.
    pub exponent: u32,
}

// Whether a row's number has an even number of the bits `signs`.
fn is_even(signs: usize, r: usize) -> bool
    ensures { result ≡ is_even signs r }
{
    (signs & r).count_ones() % 2 == 0
}

impl Rows {
    // Row r.
    pub fn row(&self, r: usize) -> &Row
        ensures { result.now ≡ (rows_of self.now).row r }
    {
        if is_even(self.signs, r ^ self.flips) {
            return &self.low;
        }
        &self.high
    }
}

// p·1 + q·A by its rows, where p and q are a pair and A is the axis.
pub fn axis_rows(axis: Axis, pair: &Pair) -> Rows
    requires { Level pair.now }
    ensures { rows_of result ≡ rows_about (mask axis.flips axis.signs axis.turns) pair.now }
{
    let own = pair.own.n;
    let plus = turned4(pair.other.n, axis.turns);
    let minus = neg4(plus);
    Rows {
        signs: axis.signs,
        flips: axis.flips,
        low: Row { own, other: plus },
        high: Row { own, other: minus },
        exponent: pair.own.e,
    }
}
