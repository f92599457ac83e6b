// The calls on channels in forms that keep less: packed, and without √2 parts.
// Kept (twins, together): the names and the parameters are those of include/foreituka.h.
ghost use Rattle.std.specs.Prelude.{◌≡◌};
ghost use Rattle.verdict.specs.Verdict.{verdict_number, verdict_index};
ghost use Rattle.packed.specs.Packed.{pack_verdict, pack_result, unpack_verdict, unpack_result};
ghost use Rattle.plain_words.specs.Plain.{plain_write_verdict, plain_write_result, plain_read_verdict, plain_read_result};

// Pack a channel: the verdict's number, and its index in `index`.
#[unsafe(no_mangle)]
pub extern "C" fn foreituka_pack_channel(channel: &[i64], res: &mut [i64], index: &mut u64) -> u32
    ensures value { result ≡ verdict_number (pack_verdict channel.now res.old) }
    ensures index_after { index.new ≡ verdict_index (pack_verdict channel.now res.old) }
    ensures res_after { res.new ≡ pack_result channel.now res.old }
{
    c_channels::forms::pack_channel(channel, res, index)
}

// Unpack packed words: the verdict's number, and its index in `index`.
#[unsafe(no_mangle)]
pub extern "C" fn foreituka_unpack_channel(words: &[i64], res: &mut [i64], index: &mut u64) -> u32
    ensures value { result ≡ verdict_number (unpack_verdict words.now res.old) }
    ensures index_after { index.new ≡ verdict_index (unpack_verdict words.now res.old) }
    ensures res_after { res.new ≡ unpack_result words.now res.old }
{
    c_channels::forms::unpack_channel(words, res, index)
}

// Write a channel without √2 parts: the verdict's number, and its index in `index`.
#[unsafe(no_mangle)]
pub extern "C" fn foreituka_write_plain(channel: &[i64], res: &mut [i64], index: &mut u64) -> u32
    ensures value { result ≡ verdict_number (plain_write_verdict channel.now res.old) }
    ensures index_after { index.new ≡ verdict_index (plain_write_verdict channel.now res.old) }
    ensures res_after { res.new ≡ plain_write_result channel.now res.old }
{
    c_channels::forms::write_plain(channel, res, index)
}

// Read such words: the verdict's number, and its index in `index`.
#[unsafe(no_mangle)]
pub extern "C" fn foreituka_read_plain(words: &[i64], res: &mut [i64], index: &mut u64) -> u32
    ensures value { result ≡ verdict_number (plain_read_verdict words.now res.old) }
    ensures index_after { index.new ≡ verdict_index (plain_read_verdict words.now res.old) }
    ensures res_after { res.new ≡ plain_read_result words.now res.old }
{
    c_channels::forms::read_plain(words, res, index)
}
