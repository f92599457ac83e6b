// compare, classical_blocks, povm_effects and lookup.
ghost use Rattle.std.specs.Prelude.{◌≡◌};
ghost use Rattle.verdict.specs.Verdict.{verdict_number};
ghost use Rattle.compare.specs.Compare.{compare_of};
ghost use Rattle.channel.specs.Lookup.{lookup_of, span_of};
ghost use Rattle.effects.specs.Effects.{effects_verdict, result_of, povm_of};
ghost use Rattle.c_channels.specs.Channels.{finding_number, difference, place_words, scalar_words, start_of};

use cells::CELL;

// Compare two channels: what was found, the store, row and column of the first unequal entry in `place`, and its two scalars in `scalars`.
#[unsafe(no_mangle)]
pub extern "C" fn foreituka_compare(
    left: &[i64],
    right: &[i64],
    place: &mut [u64; 3],
    scalars: &mut [i64; 2 * CELL],
) -> u32
    ensures value { result ≡ finding_number (compare_of left.now right.now) }
    ensures place_after { place.new ≡ place_words (difference (compare_of left.now right.now)) }
    ensures scalars_after { scalars.new ≡ scalar_words (difference (compare_of left.now right.now)) }
{
    c_channels::compare(left, right, place, scalars)
}

// The transposed effects of a channel's blocks: the verdict's number.
#[unsafe(no_mangle)]
pub extern "C" fn foreituka_classical_blocks(channel: &[i64], res: &mut [i64]) -> u32
    ensures value { result ≡ verdict_number (effects_verdict channel.now res.old) }
    ensures res_after { res.new ≡ result_of channel.now res.old }
{
    c_channels::classical_blocks(channel, res)
}

// The effects of a channel's blocks as the textbook has them: the verdict's number.
#[unsafe(no_mangle)]
pub extern "C" fn foreituka_povm_effects(channel: &[i64], res: &mut [i64]) -> u32
    ensures value { result ≡ verdict_number (effects_verdict channel.now res.old) }
    ensures res_after { res.new ≡ povm_of channel.now res.old }
{
    c_channels::povm_effects(channel, res)
}

// The index of a store's block, its exponent and then its numerators, or 0 where there is none.
#[unsafe(no_mangle)]
pub extern "C" fn foreituka_lookup(channel: &[i64], store: &[u8]) -> usize
    ensures { result ≡ start_of (span_of channel.now (lookup_of channel.now store.now)) }
{
    c_channels::lookup(channel, store)
}
