// The calls of the C interface on channels in forms that keep less: packed, and without √2 parts.
// Kept (together): the parameters are those of the C interface.
ghost use Rattle.std.specs.Prelude.{◌≡◌};
ghost use Rattle.verdict.specs.Verdict.{verdict_number, verdict_index};
ghost use Rattle.packed.specs.Packed.{pack_verdict, pack_result, unpack_verdict, unpack_result};
ghost use Rattle.plain_words.specs.Plain.{plain_write_verdict, plain_write_result, plain_read_verdict, plain_read_result};

use c_scalars::words::report;

// Pack a channel: the verdict's number, and its index in `index`.
pub fn pack_channel(channel: &[i64], res: &mut [i64], index: &mut u64) -> u32
    ensures value { result ≡ verdict_number (pack_verdict channel.now res.old) }
    ensures index_after { index.new ≡ verdict_index (pack_verdict channel.now res.old) }
    ensures res_after { res.new ≡ pack_result channel.now res.old }
{
    report(&packed::pack_channel(channel, res), index)
}

// Unpack packed words: the verdict's number, and its index in `index`.
pub fn unpack_channel(words: &[i64], res: &mut [i64], index: &mut u64) -> u32
    ensures value { result ≡ verdict_number (unpack_verdict words.now res.old) }
    ensures index_after { index.new ≡ verdict_index (unpack_verdict words.now res.old) }
    ensures res_after { res.new ≡ unpack_result words.now res.old }
{
    report(&packed::unpack_channel(words, res), index)
}

// Write a channel without √2 parts: the verdict's number, and its index in `index`.
pub fn write_plain(channel: &[i64], res: &mut [i64], index: &mut u64) -> u32
    ensures value { result ≡ verdict_number (plain_write_verdict channel.now res.old) }
    ensures index_after { index.new ≡ verdict_index (plain_write_verdict channel.now res.old) }
    ensures res_after { res.new ≡ plain_write_result channel.now res.old }
{
    report(&plain_words::write_plain(channel, res), index)
}

// Read such words: the verdict's number, and its index in `index`.
pub fn read_plain(words: &[i64], res: &mut [i64], index: &mut u64) -> u32
    ensures value { result ≡ verdict_number (plain_read_verdict words.now res.old) }
    ensures index_after { index.new ≡ verdict_index (plain_read_verdict words.now res.old) }
    ensures res_after { res.new ≡ plain_read_result words.now res.old }
{
    report(&plain_words::read_plain(words, res), index)
}
