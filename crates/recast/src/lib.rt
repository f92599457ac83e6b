// Words taken from one form to another: the records in their order, with next indices to match, and of each block what the form keeps. Each block is read once.
// What copies is inlined into each of the calls: there both forms are known, and no entry asks for them.
// Kept (facts): that r is a row of the block is what a loop gives, as in form_judge::rows.
// Kept (buffers, together): `res` is lent whole with a place `out`: given the part from `out` on, each caller would have to show what its own writes make of the whole,
// at no shorter code.
#![tactic(auto)]

ghost use Rattle.std.specs.Prelude.{◌≡◌, [], ◌∷◌, ℕ, ◌+◌, ◌*◌, ◌-◌, ◌<◌, ◌≤◌, length};
ghost use Rattle.std.proofs.lemmas.List.Edits.{sets};
ghost use Rattle.algebra.specs.Words.{blocks};
ghost use Rattle.exact.specs.Exact.{number_of, list_of};
ghost use Rattle.channel.specs.Layout.{header_size, record_size, record_at, block_size, block_words, from, entry_size, entry_words, word, numbers_at, form_of};
ghost use Rattle.channel.specs.Recast.{relink, recast_record};
ghost use Rattle.recast.specs.Words.{recast_into};
ghost use Rattle.recast.specs.Inner.Records.{Linked, Records, Ready};

use cells::write_numerators;
use channel::forms::{Form, Parts};
use channel::layout::{EXPONENT, HEADER, RECORD_HEAD};
use channel::records::Block;
use exact::numerators::conj4;

// The numerators of entry (r, c) of a block: what is not kept is the conjugate of entry (c, r).
#[inline(always)]
fn read_number(b: &Block, r: usize, c: usize) -> [i64; 4]
    requires { let m = b.now in (r < m.form.side) × (c < m.form.side) }
    ensures { let m = b.now in result ≡ list_of (numbers_at m.form m.words.now 0 (r * m.form.side + c)) }
{
    if c < b.form.first_column(r) {
        return conj4(b.kept(c, r));
    }
    b.kept(r, c)
}

// Write what is kept of the numerators of an entry from p on.
#[inline(always)]
fn write_number(s: &mut [i64], p: usize, plain: bool, x: [i64; 4])
    requires { p + entry_size plain ≤ length s.old }
    ensures { s.new ≡ sets s.old p (entry_words plain (number_of x)) }
{
    if plain {
        s[p] = x[0];
        s[p + 1] = x[2];
        return;
    }
    write_numerators(s, p, x);
}

// Write the entries of row r of a block that the form `to` keeps, from `out` on.
#[inline(always)]
fn copy_row(b: &Block, to: Form, r: usize, res: &mut [i64], out: usize)
    requires { let m = b.now in (to.side ≡ m.form.side) × ((r < m.form.side) × (out + (m.form.side - from to r) * entry_size to.plain ≤ length res.old)) }
    ensures { let m = b.now in res.new ≡ blocks (entry_size to.plain) res.old out (m.form.side - from to r) (λ (j : ℕ). entry_words to.plain (numbers_at m.form m.words.now 0 (r * m.form.side + (from to r + j)))) }
{
    let skipped = to.first_column(r);
    let size = to.entry_size();
    let plain = to.is_plain();
    for j in 0..to.side() - skipped {
        let x = read_number(b, r, skipped + j);
        write_number(res, out + j * size, plain, x);
    }
}

// Write a block as the form that keeps the parts `to` keeps it, from `out` on.
#[inline(always)]
fn copy_block(b: &Block, to: Parts, res: &mut [i64], out: usize)
    requires { let m = b.now in out + block_size (form_of m.form.side to) ≤ length res.old }
    ensures { let m = b.now in res.new ≡ sets res.old out (block_words (form_of m.form.side to) (numbers_at m.form m.words.now 0)) }
{
    let form = b.form.keeping(to);
    let size = form.entry_size();
    for r in 0..form.side() {
        copy_row(b, form, r, res, out + form.row_start(r) * size);
    }
}

// The index in the form `to` that matches an index in the form `from`.
fn relinked(from: Form, to: Form, z: i64) -> i64
    requires { Linked from to z }
    ensures { result ≡ relink from to z }
{
    if z == 0 {
        return 0;
    }
    let j = (z as usize - HEADER) / from.record_size();
    let at = HEADER + j * to.record_size();
    at as i64
}

// Write the record of a block in the form that keeps the parts `to`, from `out` on.
#[inline(always)]
fn copy_record(b: &Block, to: Parts, res: &mut [i64], out: usize)
    requires { let m = b.now in let G = form_of m.form.side to in Linked m.form G (word m.words.now 0) × (out + record_size G ≤ length res.old) }
    ensures { let m = b.now in res.new ≡ sets res.old out (recast_record m.form (form_of m.form.side to) m.words.now 0) }
{
    let from = b.form;
    let s = b.words;
    let next = relinked(from, from.keeping(to), s[0]);
    write_numerators(res, out, [next, s[1], s[2], s[EXPONENT]]);
    copy_block(b, to, res, out + RECORD_HEAD);
}

// Write n records in the form that keeps the parts `to`, in their order.
#[inline(always)]
fn copy_records(s: &[i64], from: Form, n: usize, res: &mut [i64], to: Parts)
    requires { let G = form_of from.side to in Records from G s.now n × (record_at G n ≤ length res.old) }
    ensures { let G = form_of from.side to in res.new ≡ blocks (record_size G) res.old header_size n (λ (j : ℕ). recast_record from G s.now (record_at from j)) }
{
    let here = from.record_size();
    let there = from.keeping(to).record_size();
    for j in 0..n {
        let b = Block::at(s, from, HEADER + j * here);
        copy_record(&b, to, res, HEADER + j * there);
    }
}

// Write words of the form `from`, of n records, in the form that keeps the parts `to`.
#[inline(always)]
pub fn recast(s: &[i64], from: Form, n: usize, res: &mut [i64], to: Parts)
    requires { Ready from (form_of from.side to) s.now n res.old }
    ensures { res.new ≡ recast_into from (form_of from.side to) s.now res.old }
{
    let dim = s[0];
    let bits = s[1];
    let count = s[2];
    let first = s[3];
    write_numerators(
        res,
        0,
        [dim, bits, count, relinked(from, from.keeping(to), first)],
    );
    copy_records(s, from, n, res, to);
}
