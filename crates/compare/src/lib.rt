// The comparison of two channels: their chains are walked in step, and the blocks of each store compared. Blocks of one exponent are compared word by word, in rows;
// only a block that differs is searched for its first unequal entry.
#![tactic(auto)]

ghost use Rattle.std.specs.Prelude.{◌≡◌, true, ◌+◌, ◌*◌, ◌<◌, ◌≤◌};
ghost use Rattle.std.specs.Option.{ForSome, option_copied};
ghost use Rattle.exact.specs.Exact.{equal};
ghost use Rattle.scalar.specs.Calls.{scalar_of};
ghost use Rattle.channel.specs.Layout.{read_back};
ghost use Rattle.channel.specs.Inner.Shapes.{Onward};
ghost use Rattle.compare.specs.Compare.{scan, first, merge, compare_of};
ghost use Rattle.compare.specs.Inner.Sides.{holds, side_of, both_alike, blocks_of};
ghost use Rattle.compare.specs.Inner.Walk.{turn_of, cursor_at, taken_of, advance, On, Matched};

use channel::layout::{ENTRY, EXPONENT, RECORD_HEAD, block_size, follow, read_entry, read_store};
use channel::well_formed::judge;
use gather::{same_rows, same_words};
use scalar::{Scalar, ZERO};
use store::comes_before;
use verdict::Refusal;

// Bit j of a store weighs 2^j.
#[derive(Clone, Copy)]
pub struct Place {
    pub store: u64,
    pub row: usize,
    pub col: usize,
}

// An entry at which two channels differ.
#[derive(Clone, Copy)]
pub struct Difference {
    pub place: Place,
    pub left: Scalar,
    pub right: Scalar,
}

#[derive(Clone, Copy)]
pub enum Comparison {
    Same,
    Dimensions,
    Differs(Difference),
}

// A record on a chain: its index, how many are left with it, and its store.
#[derive(Clone, Copy)]
struct Cursor {
    pub at: usize,
    pub left: usize,
    pub store: u64,
}

// The next store, and the record of each side that has a block of it.
#[derive(Clone, Copy)]
struct Turn {
    pub store: u64,
    pub left: Option<Cursor>,
    pub right: Option<Cursor>,
}

// Entry k of a side, or zero where it has no block.
fn entry_or_zero(side: Option<&[i64]>, k: usize) -> Scalar
    requires { holds (k + 1) (option_copied side) ≡ true }
    ensures { result ≡ scalar_of (side_of (option_copied side.entry) k) }
{
    match side {
        Some(s) => read_entry(s, 0, k),
        None => ZERO,
    }
}

// Whether both sides have a block, and both blocks one exponent.
fn are_alike(left: Option<&[i64]>, right: Option<&[i64]>) -> bool
    requires { (holds 0 (option_copied left) ≡ true) × (holds 0 (option_copied right) ≡ true) }
    ensures { result ≡ both_alike (option_copied left.entry) (option_copied right.entry) }
{
    match (left, right) {
        (Some(l), Some(r)) => l[EXPONENT] == r[EXPONENT],
        _ => false,
    }
}

// The blocks of one store, of `side` rows and columns: the words of each side's record from its first on, where it has one; and whether they are alike.
#[derive(Clone, Copy)]
struct Sides<'a> {
    store: u64,
    side: usize,
    left: Option<&'a [i64]>,
    right: Option<&'a [i64]>,
    alike: bool,
    ghost small: { side ≤ 256 },
    ghost left_held: { holds (side * side) (option_copied left) ≡ true },
    ghost right_held: { holds (side * side) (option_copied right) ≡ true },
    ghost alike_is: { alike ≡ both_alike (option_copied left) (option_copied right) },
}

impl<'a> Sides<'a> {
    // Whether entry k is the same on both sides: by the words of blocks that are alike, else by lowest forms.
    // Kept: an entry is no value of a type of its own but a place in two blocks, each over its own exponent, so no derive compares it.
    fn same_entry(&self, k: usize) -> bool
        requires { k < self.now.side * self.now.side }
        ensures { let s = self.now in result ≡ equal (side_of (option_copied s.left) k) (side_of (option_copied s.right) k) }
    {
        match (self.left, self.right) {
            (Some(l), Some(r)) if self.alike => {
                let p = RECORD_HEAD + k * ENTRY;
                same_words(&l[p..p + ENTRY], &r[p..p + ENTRY])
            }
            _ => entry_or_zero(self.left, k).equals(entry_or_zero(self.right, k)),
        }
    }

    // The first unequal entry, rows then columns.
    fn search(&self) -> Option<Difference>
        ensures { let s = self.now in result ≡ scan (blocks_of s.store (option_copied s.left) (option_copied s.right)) s.side (s.side * s.side) 0 }
    {
        let w = self.side;
        for row in 0..w {
            for col in 0..w {
                let k = row * w + col;
                if !self.same_entry(k) {
                    let place = Place {
                        store: self.store,
                        row,
                        col,
                    };
                    return Some(Difference {
                        place,
                        left: entry_or_zero(self.left, k),
                        right: entry_or_zero(self.right, k),
                    });
                }
            }
        }
        None
    }

    // The same: none where the blocks are alike and have the same words.
    fn compare(&self) -> Option<Difference>
        ensures { let s = self.now in result ≡ scan (blocks_of s.store (option_copied s.left) (option_copied s.right)) s.side (s.side * s.side) 0 }
    {
        if let (Some(l), Some(r)) = (self.left, self.right) {
            let end = RECORD_HEAD + block_size(self.side);
            if self.alike && same_rows(&l[RECORD_HEAD..end], &r[RECORD_HEAD..end]) {
                return None;
            }
        }
        self.search()
    }
}

// The next of the records that are left, at index `at`.
fn enter(s: &[i64], left: usize, at: usize) -> Option<Cursor>
    requires { Onward s.now left at }
    ensures { result ≡ cursor_at s.now left at }
{
    if left == 0 {
        return None;
    }
    let store = read_store(s, at);
    Some(Cursor { at, left, store })
}

// The words of a record from its first on, if its side takes part.
fn taken(s: &[i64], side: Option<Cursor>) -> Option<&[i64]>
    requires { ForSome side (On s.now) }
    ensures { option_copied result ≡ taken_of s.now side }
{
    match side {
        Some(c) => Some(&s[c.at..]),
        None => None,
    }
}

// The record after the one that takes part, or c where its side does not.
fn advanced(s: &[i64], side: Option<Cursor>, c: Option<Cursor>) -> Option<Cursor>
    requires { ForSome side (On s.now) }
    ensures { result ≡ advance s.now side c }
{
    match side {
        Some(t) => enter(s, t.left - 1, follow(s, t.at)),
        None => c,
    }
}

// Kept: by hand, since it is asked which sides have the least store: the least alone would be compared with both again.
// The least store of two records, and which sides have it.
fn choose(a: Option<Cursor>, b: Option<Cursor>) -> Option<Turn>
    ensures { result ≡ turn_of a b }
{
    let (left, right) = match (a, b) {
        (Some(x), Some(y)) if x.store != y.store => {
            if comes_before(x.store, y.store) {
                (a, None)
            } else {
                (None, b)
            }
        }
        _ => (a, b),
    };
    let first = left.or(right)?;
    Some(Turn {
        store: first.store,
        left,
        right,
    })
}

// The first unequal entry along two chains, walked in step.
fn compare_chains(left: &[i64], right: &[i64], m: usize, n: usize, w: usize) -> Option<Difference>
    requires { Matched left.now right.now m n w }
    ensures { result ≡ first w (merge (read_back left.now) (read_back right.now)) }
{
    let mut a = enter(left, m, follow(left, 3));
    let mut b = enter(right, n, follow(right, 3));
    // Kept: each chain is walked at its own pace, so no range counts the turns; a `for` is no plainer.
    while let Some(turn) = choose(a, b) {
        let l = taken(left, turn.left);
        let r = taken(right, turn.right);
        let sides = Sides {
            store: turn.store,
            side: w,
            left: l,
            right: r,
            alike: are_alike(l, r),
        };
        let d = sides.compare();
        if d.is_some() {
            return d;
        }
        a = advanced(left, turn.left, a);
        b = advanced(right, turn.right, b);
    }
    None
}

// The first entry at which two channels differ: the stores of both in rising order, then rows, then columns; a missing block is zero.
pub fn compare(left: &[i64], right: &[i64]) -> Result<Comparison, Refusal>
    ensures { result ≡ compare_of left.now right.now }
{
    let g = judge(left)?;
    let h = judge(right)?;
    if !((g.dim == h.dim) & (g.bits == h.bits)) {
        return Ok(Comparison::Dimensions);
    }
    match compare_chains(left, right, g.count, h.count, g.dim * g.dim) {
        Some(d) => Ok(Comparison::Differs(d)),
        None => Ok(Comparison::Same),
    }
}
