// Whether words are well formed in a form, whether they are a channel, and whether a block of it is zero.
// Kept (facts, together, buffers): the words, their form and two counts of the header go through the two functions on a chain; count is the header's, and no length: the words may go on behind the last record.
ghost use Rattle.std.specs.Prelude.{◌≡◌, true, is_none, unwrap_or, nat_abs};
ghost use Rattle.channel.specs.Layout.{word, store_at};
ghost use Rattle.channel.specs.WellFormed.{is_dim, rises, chain_ok, well_formed};
ghost use Rattle.channel.specs.Inner.Shapes.{when, some_blank, enters, Room, header_of, shape_of};

use super::Shape;
use super::forms::{ALL, Form, Parts};
use super::layout::{HEADER, up_to};
use super::records::Record;
use store::comes_before;
use verdict::Refusal;

fn is_dim(z: i64) -> bool
    ensures { result ≡ is_dim z }
{
    (z == 1) | (z == 2) | (z == 4) | (z == 8) | (z == 16)
}

// Whether a store comes after the one before it, if there is one.
fn rises(prev: Option<u64>, store: u64) -> bool
    ensures { result ≡ rises (is_none prev) (unwrap_or prev 0) store }
{
    prev.is_none_or(|p| comes_before(p, store))
}

// The store of the record at index z, if one of `count` records starts there, and its store has at most m bits and comes after the one before it.
pub fn enter(s: &[i64], form: Form, m: u32, count: usize, z: i64, prev: Option<u64>) -> Option<u64>
    requires { Room form s.now m count }
    ensures { result ≡ when (enters form s.now m count z (is_none prev) (unwrap_or prev 0)) (store_at s.now (nat_abs z)) }
{
    if !form.is_start(count, z) {
        return None;
    }
    let r = Record::at(s, form, z as usize);
    let store = r.judge_store(m)?;
    if !rises(prev, store) {
        return None;
    }
    Some(store)
}

// Whether one of `count` blocks is blank, if the chain visits their records in rising order of their stores, and ends.
pub fn judge_chain(s: &[i64], form: Form, m: u32, count: usize) -> Option<bool>
    requires { Room form s.now m count }
    ensures { result ≡ when (chain_ok form s.now m count count (word s.now 3) true 0) (some_blank form s.now count (nat_abs (word s.now 3))) }
{
    let mut z = s[3];
    let mut prev = None;
    let mut blank = false;
    for i in 0..count {
        let store = enter(s, form, m, count, z, prev)?;
        let r = Record::at(s, form, z as usize);
        blank = blank | r.judge_block()?;
        z = r.next();
        prev = Some(store);
    }
    if z == 0 { Some(blank) } else { None }
}

// Kept: words become numbers by `as`, behind the question of their bound: `try_from` would ask once more that they are not negative.
// The header of words of a form, if it and the room for its records are right.
pub fn header(s: &[i64], f: Parts) -> Result<Shape, Refusal>
    ensures { result ≡ header_of f s.now }
{
    if s.len() < HEADER {
        return Err(Refusal::Malformed);
    }
    let dim = s[0];
    let bits = s[1];
    let count = s[2];
    if !(is_dim(dim) & up_to(64, bits)) {
        return Err(Refusal::Malformed);
    }
    let d = dim as usize;
    let most = (s.len() - HEADER) / Form::new(d * d, f).record_size();
    if !up_to(most as u64, count) {
        return Err(Refusal::Malformed);
    }
    Ok(Shape {
        dim: d,
        bits: bits as u32,
        count: count as usize,
    })
}

// The header of words given as a channel, or why they are refused.
pub fn judge(s: &[i64]) -> Result<Shape, Refusal>
    ensures { result ≡ shape_of s.now }
{
    let h = header(s, ALL)?;
    match judge_chain(s, h.form(ALL), h.bits, h.count) {
        None => Err(Refusal::Malformed),
        Some(true) => Err(Refusal::ZeroBlock),
        Some(false) => Ok(h),
    }
}

// A channel with a block of zeros is well formed too.
pub fn well_formed(s: &[i64]) -> bool
    ensures { result ≡ well_formed s.now }
{
    !matches!(judge(s), Err(Refusal::Malformed))
}
