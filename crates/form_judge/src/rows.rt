// One pass over the rows of a whole block: whether the block is right, whether it is blank, and whether a form that keeps less restores it.
// Kept (facts, together): rows and columns are numbers that a loop gives, and a block is a record of the whole form; a type for them would be made at each turn.
ghost use Rattle.std.specs.Prelude.{◌≡◌, not, ◌*◌, ◌<◌, eqb};
ghost use Rattle.std.specs.Int.{w64};
ghost use Rattle.std.proofs.Common.{of_z};
ghost use Rattle.algebra.specs.Lists.{all_below};
ghost use Rattle.exact.specs.Exact.{number_of, list_of, is_zero};
ghost use Rattle.gather.specs.Words.{seen_of};
ghost use Rattle.channel.specs.Layout.{full, record_head, block_size, numbers_at, form_of};
ghost use Rattle.channel.specs.WellFormed.{block_ok};
ghost use Rattle.channel.specs.Forms.{has_root};
ghost use Rattle.channel.specs.Inner.Shapes.{when};
ghost use Rattle.form_judge.specs.Inner.Judging.{mirrors, mirrored, rational, row_fits, sight_of};

use channel::forms::Parts;
use channel::layout::{ENTRY, EXPONENT, RECORD_HEAD, up_to};
use channel::records::{Record, read_kept};
use exact::MAX_EXPONENT;
use exact::ranges::all_zero;
use gather::{Seen, see};

// What is seen of a block that is right: whether it is blank, and whether a form restores it.
#[derive(Clone, Copy)]
pub struct Sight {
    pub blank: bool,
    pub fits: bool,
}

// The numerators of entry k.
fn entry(b: &Record, k: usize) -> [i64; 4]
    requires { let m = b.now in (m.form ≡ full m.form.side) × (k < m.form.side * m.form.side) }
    ensures { let m = b.now in result ≡ list_of (numbers_at m.form m.words.now 0 k) }
{
    read_kept(b.words, RECORD_HEAD + k * ENTRY, false)
}

// What tells a number from the conjugate of another: zeros exactly where nothing does, if both are in range, so that no sum of theirs wraps.
fn apart(x: [i64; 4], y: [i64; 4]) -> [i64; 4]
    ensures { is_zero (number_of result) ≡ mirrors (number_of x) (number_of y) }
{
    [
        x[0] ^ y[0],
        x[1] ^ y[1],
        x[2].wrapping_add(y[2]),
        x[3].wrapping_add(y[3]),
    ]
}

// The √2 part of a number: 0 exactly where it has none.
fn root(x: [i64; 4]) -> i64
    ensures { eqb (of_z w64 result) 0 ≡ not (has_root (number_of x)) }
{
    x[1] | x[3]
}

// Whether the entries of row r from the diagonal on are the conjugates of their mirrors. What tells them apart is gathered without an early exit, numerator by numerator, so that four
// are looked at at once.
fn mirrored(b: &Record, r: usize) -> bool
    requires { let m = b.now in (m.form ≡ full m.form.side) × (r < m.form.side) }
    ensures { let m = b.now in result ≡ mirrored m.form.side (numbers_at m.form m.words.now 0) r }
{
    let w = b.form.side();
    let mut d0 = 0i64;
    let mut d1 = 0i64;
    let mut d2 = 0i64;
    let mut d3 = 0i64;
    for j in 0..w - r {
        let c = r + j;
        let a = apart(entry(b, r * w + c), entry(b, c * w + r));
        d0 = d0 | a[0];
        d1 = d1 | a[1];
        d2 = d2 | a[2];
        d3 = d3 | a[3];
    }
    all_zero([d0, d1, d2, d3])
}

// Whether the entries of row r have no √2 part, gathered likewise.
fn rational(b: &Record, r: usize) -> bool
    requires { let m = b.now in (m.form ≡ full m.form.side) × (r < m.form.side) }
    ensures { let m = b.now in result ≡ rational m.form.side (numbers_at m.form m.words.now 0) r }
{
    let w = b.form.side();
    let mut d = 0i64;
    for c in 0..w {
        d = d | root(entry(b, r * w + c));
    }
    d == 0
}

// Whether a form restores what row r decides.
fn row_fits(b: &Record, to: Parts, r: usize) -> bool
    requires { let m = b.now in (m.form ≡ full m.form.side) × (r < m.form.side) }
    ensures { let m = b.now in result ≡ row_fits to.half to.plain m.form.side (numbers_at m.form m.words.now 0) r }
{
    (!to.half || mirrored(b, r)) && (!to.plain || rational(b, r))
}

// What is seen of a block's words, and whether a form restores each of its rows.
#[derive(Clone, Copy)]
struct Pass {
    seen: Seen,
    fits: bool,
}

// Go over a block row by row; a row is held against the form while its words are at hand.
fn look(b: &Record, to: Parts) -> Pass
    requires { b.now.form ≡ full b.now.form.side }
    ensures seen { let m = b.now in result.seen ≡ seen_of m.words.now record_head (block_size m.form) }
    ensures fits { let m = b.now in result.fits ≡ all_below m.form.side (row_fits to.half to.plain m.form.side (numbers_at m.form m.words.now 0)) }
{
    let w = b.form.side();
    let n = w * ENTRY;
    let mut seen = Seen {
        range: true,
        even: true,
        zero: true,
    };
    let mut fits = true;
    for r in 0..w {
        let k = RECORD_HEAD + r * n;
        let g = see(&b.words[k..k + n]);
        seen = Seen {
            range: seen.range & g.range,
            even: seen.even & g.even,
            zero: seen.zero & g.zero,
        };
        fits = fits & row_fits(b, to, r);
    }
    Pass { seen, fits }
}

// What is seen of a block, if it is right.
pub fn judge_block(b: &Record, to: Parts) -> Option<Sight>
    requires { b.now.form ≡ full b.now.form.side }
    ensures { let m = b.now in result ≡ when (block_ok m.form m.words.now 0) (sight_of to m.form m.words.now 0) }
{
    let e = b.words[EXPONENT];
    if !up_to(MAX_EXPONENT as u64, e) {
        return None;
    }
    let g = look(b, to);
    if !(g.seen.range & ((e == 0) | !g.seen.even)) {
        return None;
    }
    Some(Sight {
        blank: g.seen.zero,
        fits: g.fits,
    })
}
