// Words of a form: whether they are well formed, and which block along the chain of a channel another form does not restore.
#![tactic(auto)]

ghost use Rattle.std.specs.Prelude.{◌≡◌, true, Some, None, cond};
ghost use Rattle.std.specs.Option.{option_or};
ghost use Rattle.channel.specs.Layout.{full, word, form_of};
ghost use Rattle.channel.specs.WellFormed.{chain_ok};
ghost use Rattle.channel.specs.Inner.Shapes.{when, Room};
ghost use Rattle.form_judge.specs.Inner.Judging.{shape_in, judged_of, found_of};

pub mod rows;

use channel::Shape;
use channel::forms::{ALL, Form, Parts};
use channel::records::Record;
use channel::well_formed::{enter, header, judge_chain};
use rows::judge_block;
use verdict::Refusal;

// Kept: `judge` of channel::well_formed is its twin for ALL but for blocks of zeros, which it refuses; one function of both would take the parts and a bool.
// The header of words of a form that are well formed.
pub fn judge_form(s: &[i64], f: Parts) -> Result<Shape, Refusal>
    ensures { result ≡ shape_in f s.now }
{
    let h = header(s, f)?;
    match judge_chain(s, h.form(f), h.bits, h.count) {
        None => Err(Refusal::Malformed),
        Some(_) => Ok(h),
    }
}

// What is found along a chain: whether a block is blank, and the place of the first that a form does not restore, if there is one.
#[derive(Clone, Copy)]
pub struct Found {
    pub blank: bool,
    pub fault: Option<usize>,
}

// The first fault up to block i, if `fault` is that before it.
fn fault_at(fault: Option<usize>, fits: bool, i: usize) -> Option<usize>
    ensures { result ≡ option_or fault (cond fits None (Some i)) }
{
    if fault.is_some() | fits {
        return fault;
    }
    Some(i)
}

// Kept: `judge_chain` of channel::well_formed is its twin, of which it is a block's judge and one answer more; a function of both would be given the judge of a block, and promise what that promises.
// What is found along the chain of a channel, if it is right, as judge_chain of channel::well_formed has it. Each block is gone over once, row by row.
fn judge_blocks(s: &[i64], form: Form, m: u32, count: usize, to: Parts) -> Option<Found>
    requires room { Room form s.now m count }
    requires whole { form ≡ full form.side }
    ensures { result ≡ when (chain_ok form s.now m count count (word s.now 3) true 0) (found_of form (form_of form.side to) s.now count) }
{
    let mut z = s[3];
    let mut prev = None;
    let mut blank = false;
    let mut fault = None;
    for i in 0..count {
        let store = enter(s, form, m, count, z, prev)?;
        let r = Record::at(s, form, z as usize);
        let b = judge_block(&r, to)?;
        blank = blank | b.blank;
        fault = fault_at(fault, b.fits, i);
        z = r.next();
        prev = Some(store);
    }
    if z == 0 {
        Some(Found { blank, fault })
    } else {
        None
    }
}

// A channel that is well formed, without a block of zeros: its header, and the place along its chain of the first block that a form does not restore, if there is one.
#[derive(Clone, Copy)]
pub struct Judged {
    pub shape: Shape,
    pub fault: Option<usize>,
}

// Kept: `judge` of channel::well_formed is its twin without a fault; one function of both would be given the walk along the chain.
// What is judged of words given as a channel that is to be written in the form that keeps these parts, or why they are refused.
pub fn judge_channel(s: &[i64], to: Parts) -> Result<Judged, Refusal>
    ensures { result ≡ judged_of to s.now }
{
    let shape = header(s, ALL)?;
    let Some(f) = judge_blocks(s, shape.form(ALL), shape.bits, shape.count, to) else {
        return Err(Refusal::Malformed);
    };
    if f.blank {
        return Err(Refusal::ZeroBlock);
    }
    Ok(Judged {
        shape,
        fault: f.fault,
    })
}
