// The effects of a channel's blocks, transposed and as the textbook has them. The sums are tried before the first word is written, so that a refusal leaves the result as it was.
// Kept (buffers): a place in the result. The contracts say what all of it becomes, record by record; a cut slice would tell of its own part alone. d beside the words is the dimension, and no length.
// Kept (facts): e ≤ max_exponent, of a number that is a shift at once; a type for it would be opened in both functions.
#![tactic(auto)]

ghost use Rattle.std.specs.Prelude.{◌≡◌, true, cond, ℕ, ◌+◌, ◌*◌, ◌<◌, ◌≤◌, [], ◌∷◌, length, pos, Err};
ghost use Rattle.std.proofs.lemmas.List.Edits.{sets};
ghost use Rattle.algebra.specs.Lists.{all_below};
ghost use Rattle.exact.specs.Exact.{within, max_numerator, max_exponent, number_of, list_of};
ghost use Rattle.scalar.specs.Calls.{value, scalar_of, accepted};
ghost use Rattle.verdict.specs.declared.Refusal.TheVariants.{TooLarge};
ghost use Rattle.channel.specs.Shared.{shared_exponent, scaled};
ghost use Rattle.channel.specs.Layout.{channels, effects, header_size, block_size, block_words, record_size, effect_place, word};
ghost use Rattle.channel.specs.Recast.{relink};
ghost use Rattle.channel.specs.Inner.Shapes.{shape_by};
ghost use Rattle.share.specs.Share.{with_numerators};
ghost use Rattle.effects.specs.Effects.{term, effect_at, partials_fit, terms_fit, record_fits, sums_fit, effect_header, effect_shared, effect_record, with_records, effects_words, result_by, effects_verdict, result_of, povm_of};
ghost use Rattle.effects.specs.Inner.Readable.{Dim, Readable, Records, Linked, Ready};
ghost use Rattle.effects.specs.Inner.Strides.{strided, strided_at, form_at, Strides, Effect, shared_words};

use cells::write_numerators;
use channel::Shape;
use channel::layout::{ENTRY, EXPONENT, HEADER, read_entry, record_size};
use channel::well_formed::judge;
use exact::MAX_NUMERATOR;
use exact::numerators::scaled4;
use exact::ranges::are_within;
use scalar::{Scalar, ZERO};
use verdict::{Refusal, Verdict};

// The place in a block of its entry (o·d + r, o·d + c).
fn term_place(d: usize, r: usize, c: usize, o: usize) -> usize
    requires { Dim d × ((r < d) × ((c < d) × (o < d))) }
    ensures { result ≡ effect_place d r c o }
{
    let w = d * d;
    let row = o * d + r;
    let col = o * d + c;
    row * w + col
}

// Whether the numerators of x fit over 2^e.
fn fits_over(x: Scalar, e: u32) -> bool
    requires { (x.e ≤ e) × (e ≤ max_exponent) }
    ensures { result ≡ within max_numerator (scaled e (value x)) }
{
    are_within(x.n, MAX_NUMERATOR >> (e - x.e))
}

// Which entry of the transposed effect is written as entry (r, c): entry r·rows + c·cols.
#[derive(Clone, Copy)]
struct Stride {
    rows: usize,
    cols: usize,
}

// Kept: a place in the channel's words, of which the sums are said; the Block of channel begins at its record's first word.
// A block of a channel of dimension d, in its shared form: its record lies at `at` of the words.
#[derive(Clone, Copy)]
struct Block<'a> {
    words: &'a [i64],
    at: usize,
    d: usize,
    ghost readable: { Readable words.now at d },
}

// A block of which every partial sum fits.
#[derive(Clone, Copy)]
struct Sums<'a> {
    block: Block<'a>,
    ghost fit: { terms_fit block.words.now block.at block.d ≡ true },
}

// An effect that fits, and the strides that it is written by.
#[derive(Clone, Copy)]
struct Finished<'a> {
    sums: Sums<'a>,
    strides: Stride,
    ghost fits: { ∥ Effect sums.block.words.now sums.block.at sums.block.d strides.rows strides.cols ∥₁ },
}

impl<'a> Block<'a> {
    // Entry i of the effect, or a refusal where a partial sum leaves the range.
    fn sum_entry(self, i: usize) -> Result<Scalar, Refusal>
        requires { i < self.d * self.d }
        ensures { let b = self.entry in result ≡ cond (partials_fit b.d (term b.words.now b.at b.d i)) (accepted (effect_at b.words.now b.at b.d i)) (Err TooLarge) }
    {
        let r = i / self.d;
        let c = i % self.d;
        let mut acc = ZERO;
        for o in 0..self.d {
            let k = term_place(self.d, r, c, o);
            let x = read_entry(self.words, self.at, k);
            acc = acc.add(x)?;
        }
        Ok(acc)
    }

    // Whether every partial sum fits.
    fn terms_fit(self) -> bool
        ensures { let b = self.entry in result ≡ terms_fit b.words.now b.at b.d }
    {
        for i in 0..self.d * self.d {
            if self.sum_entry(i).is_err() {
                return false;
            }
        }
        true
    }

    // Whether every partial sum fits, and then the finished effect.
    fn fits(self) -> bool
        ensures { let b = self.entry in result ≡ record_fits b.words.now b.at b.d }
    {
        if !self.terms_fit() {
            return false;
        }
        let sums = Sums { block: self };
        let e = sums.exponent();
        sums.entries_fit(e)
    }
}

impl<'a> Sums<'a> {
    // Entry i of the effect.
    fn entry(self, i: usize) -> Scalar
        requires { i < self.block.d * self.block.d }
        ensures { let b = self.entry.block in result ≡ scalar_of (effect_at b.words.now b.at b.d i) }
    {
        self.block.sum_entry(i).unwrap()
    }

    // The exponent that the entries of the effect share: the largest of theirs.
    fn exponent(self) -> u32
        ensures { let b = self.entry.block in result ≡ shared_exponent (b.d * b.d) (effect_at b.words.now b.at b.d) }
    {
        let d = self.block.d;
        let mut e = 0u32;
        for i in 0..d * d {
            let x = self.entry(i);
            e = e.max(x.e);
        }
        e
    }

    // Whether the entries of the effect fit over 2^e, the exponent that they share.
    fn entries_fit(self, e: u32) -> bool
        requires { let b = self.block in e ≡ shared_exponent (b.d * b.d) (effect_at b.words.now b.at b.d) }
        ensures { let b = self.entry.block in result ≡ all_below (b.d * b.d) (λ (i : ℕ). within max_numerator (scaled e (effect_at b.words.now b.at b.d i))) }
    {
        let d = self.block.d;
        for i in 0..d * d {
            let x = self.entry(i);
            if !fits_over(x, e) {
                return false;
            }
        }
        true
    }
}

impl<'a> Finished<'a> {
    // Which entry of the transposed effect is written as entry i: for i = r·d + c, entry r·rows + c·cols.
    fn place(self, i: usize) -> usize
        requires { i < self.sums.block.d * self.sums.block.d }
        ensures { let s = self.entry.strides in result ≡ strided self.entry.sums.block.d s.rows s.cols i }
    {
        let d = self.sums.block.d;
        i / d * self.strides.rows + i % d * self.strides.cols
    }

    // Write the d² entries of the effect, over 2^e, from `out` on.
    fn write_entries(self, e: u32, res: &mut [i64], out: usize)
        requires { let b = self.sums.block in (e ≡ shared_exponent (b.d * b.d) (effect_at b.words.now b.at b.d)) × (out + block_size (effects b.d) ≤ length res.old) }
        ensures { let s = self.entry.strides in let b = self.entry.sums.block in res.new ≡ with_numerators res.old out (b.d * b.d) (λ (i : ℕ). scaled e (strided_at s.rows s.cols b.words.now b.at b.d i)) }
    {
        let d = self.sums.block.d;
        for i in 0..d * d {
            let k = self.place(i);
            let x = self.sums.entry(k);
            write_scaled(res, out + i * ENTRY, x, e);
        }
    }

    // Write the effect's shared exponent to `out`, and its numerators after it.
    fn write(self, res: &mut [i64], out: usize)
        requires { out + 1 + block_size (effects self.sums.block.d) ≤ length res.old }
        ensures { let s = self.entry.strides in let b = self.entry.sums.block in res.new ≡ sets res.old out (shared_words b.d (effect_shared (strided_at s.rows s.cols) b.words.now b.at b.d)) }
    {
        let e = self.sums.exponent();
        res[out] = e as i64;
        self.write_entries(e, res, out + 1);
    }

    // Write the effect's record from `out` on.
    fn write_record(self, res: &mut [i64], out: usize)
        requires { out + record_size (effects self.sums.block.d) ≤ length res.old }
        ensures { let s = self.entry.strides in let b = self.entry.sums.block in res.new ≡ sets res.old out (effect_record (strided_at s.rows s.cols) b.words.now b.d b.at) }
    {
        let b = self.sums.block;
        let next = relinked(b.d, b.words[b.at]);
        put_three(res, out, next, b.words[b.at + 1], b.words[b.at + 2]);
        self.write(res, out + EXPONENT);
    }
}

// Whether all that is written of a channel's blocks fits.
fn sums_fit(s: &[i64], h: Shape) -> bool
    requires { Records s.now h.dim h.count }
    ensures { result ≡ sums_fit s.now h.dim h.count }
{
    let size = record_size(h.dim * h.dim);
    for j in 0..h.count {
        let block = Block {
            words: s,
            at: HEADER + j * size,
            d: h.dim,
        };
        if !block.fits() {
            return false;
        }
    }
    true
}

// Kept: recast has its twin, of two forms; effects does not lean on recast, and has a dimension and no forms.
// The index among the effects' records that matches an index of the channel's chain.
fn relinked(d: usize, z: i64) -> i64
    requires { Linked d z }
    ensures { result ≡ relink (channels d) (effects d) z }
{
    if z == 0 {
        return 0;
    }
    let size = record_size(d * d);
    let place = (z as usize - HEADER) / size;
    let to = HEADER + place * record_size(d);
    to as i64
}

// Write the numerators of x over 2^e from `at` on.
fn write_scaled(res: &mut [i64], at: usize, x: Scalar, e: u32)
    requires { (at + 4 ≤ length res.old) × ((x.e ≤ e) × ((e ≤ max_exponent) × (within max_numerator (scaled e (value x)) ≡ true))) }
    ensures { res.new ≡ sets res.old at (list_of (scaled e (value x))) }
{
    let y = scaled4(x.n, e - x.e);
    write_numerators(res, at, y);
}

// Kept: word by word, as `write_numerators` of cells.
// Write three words from `at` on.
fn put_three(res: &mut [i64], at: usize, a: i64, b: i64, c: i64)
    requires { at + 3 ≤ length res.old }
    ensures { res.new ≡ sets res.old at (a ∷ b ∷ c ∷ []) }
{
    res[at] = a;
    res[at + 1] = b;
    res[at + 2] = c;
}

// Write the effects' records of a channel's blocks, in the channel's own order.
fn write_records(s: &[i64], h: Shape, strides: Stride, res: &mut [i64])
    requires { Records s.now h.dim h.count × (Strides h.dim strides.rows strides.cols × ((sums_fit s.now h.dim h.count ≡ true) × (header_size + h.count * record_size (effects h.dim) ≤ length res.old))) }
    ensures { res.new ≡ with_records (strided_at strides.rows strides.cols) s.now h.dim h.count res.old }
{
    let from = record_size(h.dim * h.dim);
    let to = record_size(h.dim);
    for j in 0..h.count {
        let block = Block {
            words: s,
            at: HEADER + j * from,
            d: h.dim,
        };
        let sums = Sums { block };
        let effect = Finished { sums, strides };
        effect.write_record(res, HEADER + j * to);
    }
}

// Write the effects' header.
fn write_header(s: &[i64], d: usize, res: &mut [i64])
    requires { Linked d (word s.now 3) × ((header_size ≤ length s.now) × (header_size ≤ length res.old)) }
    ensures { res.new ≡ sets res.old 0 (effect_header s.now d) }
{
    put_three(res, 0, s[0], s[1], s[2]);
    res[3] = relinked(d, s[3]);
}

// The channel's header, or why its effects are refused: the verdict on it and on the result that they go to.
fn judge_effects(channel: &[i64], res: &[i64]) -> Result<Shape, Refusal>
    ensures { result ≡ shape_by (effects_verdict channel.now res.now) channel.now }
{
    let h = judge(channel)?;
    let size = record_size(h.dim);
    if res.len() < HEADER + h.count * size {
        return Err(Refusal::ShortBuffer);
    }
    if !sums_fit(channel, h) {
        return Err(Refusal::TooLarge);
    }
    Ok(h)
}

// Write the effects' words.
fn write_effects(s: &[i64], h: Shape, strides: Stride, res: &mut [i64])
    requires { Ready s.now res.old h.dim h.count × Strides h.dim strides.rows strides.cols }
    ensures { res.new ≡ effects_words (strided_at strides.rows strides.cols) s.now res.old }
{
    write_header(s, h.dim, res);
    write_records(s, h, strides, res);
}

// Kept: a bool, handed on within this file alone; an enum of the two would be matched on for each digit.
// The stride of one of an entry's two digits: that of a row, or of a column.
fn step_of(d: usize, row: bool) -> usize
    ensures { result ≡ cond row d 1 }
{
    if row { d } else { 1 }
}

// Write the effect of each store's block, transposed or as the textbook has it. A refusal leaves the result as it was.
fn effects_in(channel: &[i64], textbook: bool, res: &mut [i64]) -> Verdict
    ensures verdict { result ≡ effects_verdict channel.now res.old }
    ensures words { res.new ≡ result_by (form_at textbook) (effects_verdict channel.now res.old) channel.now res.old }
{
    let h = judge_effects(channel, res)?;
    let rows = step_of(h.dim, !textbook);
    let cols = step_of(h.dim, textbook);
    write_effects(channel, h, Stride { rows, cols }, res);
    Ok(())
}

// The transposed effect of each store's block, d² entries each, in the channel's own order: entry (r, c) sums block entry (o·d + r, o·d + c)
// over o from 0 up. A refusal leaves the result as it was.
pub fn classical_blocks(channel: &[i64], res: &mut [i64]) -> Verdict
    ensures verdict { result ≡ effects_verdict channel.now res.old }
    ensures words { res.new ≡ result_of channel.now res.old }
{
    effects_in(channel, false, res)
}

// The effect of each store's block as the textbook has it, the POVM element: entry (r, c) is entry (c, r) of the transposed effect.
// All else is as in classical_blocks.
pub fn povm_effects(channel: &[i64], res: &mut [i64]) -> Verdict
    ensures verdict { result ≡ effects_verdict channel.now res.old }
    ensures words { res.new ≡ povm_of channel.now res.old }
{
    effects_in(channel, true, res)
}
