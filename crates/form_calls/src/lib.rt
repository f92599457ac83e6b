// A channel's words written in a form that keeps less of each block, and read from there. A refusal leaves the result as it was.
#![tactic(auto)]

ghost use Rattle.std.specs.Prelude.{◌≡◌, cond, ◌+◌, ◌*◌, leb};
ghost use Rattle.verdict.specs.declared.Refusal.TheVariants.{NotHermitianAt, NotPlainAt};
ghost use Rattle.channel.specs.Layout.{header_size, record_size};
ghost use Rattle.channel.specs.Inner.Shapes.{shape_at};
ghost use Rattle.verdict.specs.Questions.{granted};
ghost use Rattle.form_calls.specs.Calls.{write_questions, read_questions, write_verdict, read_verdict, write_result, read_result};

use channel::Shape;
use channel::forms::{ALL, Form, Parts};
use channel::layout::HEADER;
use form_judge::{judge_channel, judge_form};
use recast::recast;
use verdict::{Refusal, Verdict};

// Kept: `half` is that of Parts, of which channel::forms says why it is a bool.
// The refusal of the block at place i along the chain.
fn refusal(half: bool, i: usize) -> Refusal
    ensures { result ≡ cond half (NotHermitianAt i) (NotPlainAt i) }
{
    if half {
        Refusal::NotHermitianAt(i)
    } else {
        Refusal::NotPlainAt(i)
    }
}

// Whether n records of a form fit into a slice of a length, after a header.
fn has_room(long: usize, n: usize, form: Form) -> bool
    ensures { result ≡ leb (header_size + n * record_size form) long }
{
    if long < HEADER {
        return false;
    }
    n <= (long - HEADER) / form.record_size()
}

// The header of a channel that is written to a result, or why it is refused.
fn judge_write(channel: &[i64], f: Parts, res: &[i64]) -> Result<Shape, Refusal>
    ensures { result ≡ granted (shape_at channel.now) (write_questions f channel.now res.now) }
{
    let j = judge_channel(channel, f)?;
    let h = j.shape;
    if let Some(i) = j.fault {
        return Err(refusal(f.half, i));
    }
    if !has_room(res.len(), h.count, h.form(f)) {
        return Err(Refusal::ShortBuffer);
    }
    Ok(h)
}

// The header of words of a form that are read into a result, or why they are refused.
fn judge_read(words: &[i64], f: Parts, res: &[i64]) -> Result<Shape, Refusal>
    ensures { result ≡ granted (shape_at words.now) (read_questions f words.now res.now) }
{
    let h = judge_form(words, f)?;
    if !has_room(res.len(), h.count, h.form(ALL)) {
        return Err(Refusal::ShortBuffer);
    }
    Ok(h)
}

// Write a channel's words in the form that keeps these parts.
#[inline(always)]
pub fn write_form(channel: &[i64], f: Parts, res: &mut [i64]) -> Verdict
    ensures verdict { result ≡ write_verdict f channel.now res.old }
    ensures words { res.new ≡ write_result f channel.now res.old }
{
    let h = judge_write(channel, f, res)?;
    recast(channel, h.form(ALL), h.count, res, f);
    Ok(())
}

// Read a channel's words from the form that keeps these parts.
#[inline(always)]
pub fn read_form(words: &[i64], f: Parts, res: &mut [i64]) -> Verdict
    ensures verdict { result ≡ read_verdict f words.now res.old }
    ensures words { res.new ≡ read_result f words.now res.old }
{
    let h = judge_read(words, f, res)?;
    recast(words, h.form(f), h.count, res, ALL);
    Ok(())
}
