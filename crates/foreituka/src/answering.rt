// Two texts judged, the channel of one, the words of an answer, and the listing of a circuit given by numbers.
// Kept (twins, together): the names and the parameters are those of include/foreituka.h.
ghost use Rattle.std.specs.Prelude.{◌≡◌};
ghost use Rattle.text.specs.Page.{page, write};
ghost use Rattle.answers.specs.Numbers.{number_text};
ghost use Rattle.answers.specs.States.{store_bits, entry_text};
ghost use Rattle.judge_texts.specs.Call as both;
ghost use Rattle.text_channel.specs.Only.{only_reply, only_text, only_gates, only_result, only_work};
ghost use Rattle.listing.specs.Answer as listed;
ghost use Rattle.c_scalars.specs.Words.{operand};
ghost use Rattle.c_channels.specs.Channels.{scalar_words};
ghost use Rattle.c_circuits.specs.Circuits.{limits_of};
ghost use Rattle.c_texts.specs.Answers.{answer_number, entry_of, answer_numbers, reply_number, reply_numbers};

// Judges two texts: a number for the answer, six numbers behind it, both scalars of an entry that differs, and how many bytes of `answer` say it.
#[unsafe(no_mangle)]
pub extern "C" fn foreituka_judge_texts(
    left: &[u8],
    right: &[u8],
    store: &[u8],
    limits: &[u64; 6],
    gates: &mut [u32],
    first: &mut [i64],
    second: &mut [i64],
    work: &mut [i64],
    answer: &mut [u8],
    bytes: &mut usize,
    numbers: &mut [u64; 6],
    scalars: &mut [i64; 10],
) -> u32
    ensures value { result ≡
        answer_number (both.answer_of left.now right.now store.now (limits_of limits.now) gates.old first.old second.old work.old answer.old) }
    ensures numbers_after { numbers.new ≡
        answer_numbers
        (both.answer_of left.now right.now store.now (limits_of limits.now) gates.old first.old second.old work.old answer.old) }
    ensures scalars_after { scalars.new ≡
        scalar_words
        (entry_of (both.answer_of left.now right.now store.now (limits_of limits.now) gates.old first.old second.old work.old answer.old)) }
    ensures bytes_after { page answer.new bytes.new ≡
        write (page answer.old 0)
        (both.text_of left.now right.now store.now (limits_of limits.now) gates.old first.old second.old work.old answer.old) }
    ensures gates_after { gates.new ≡
        both.gates_after left.now right.now store.now (limits_of limits.now) gates.old first.old second.old work.old answer.old }
    ensures first_after { first.new ≡
        both.first_after left.now right.now store.now (limits_of limits.now) gates.old first.old second.old work.old answer.old }
    ensures second_after { second.new ≡
        both.second_after left.now right.now store.now (limits_of limits.now) gates.old first.old second.old work.old answer.old }
    ensures work_after { work.new ≡
        both.work_after_both left.now right.now store.now (limits_of limits.now) gates.old first.old second.old work.old answer.old }
{
    c_texts::judge_texts(
        left, right, store, limits, gates, first, second, work, answer, bytes, numbers, scalars,
    )
}

// The channel of the circuit in a text: the verdict's number, the numbers of its refusal, and how many bytes of `answer` say it.
#[unsafe(no_mangle)]
pub extern "C" fn foreituka_text_channel(
    text: &[u8],
    store: &[u8],
    limits: &[u64; 6],
    gates: &mut [u32],
    res: &mut [i64],
    work: &mut [i64],
    answer: &mut [u8],
    bytes: &mut usize,
    numbers: &mut [u64; 6],
) -> u32
    ensures value { result ≡ reply_number (only_reply text.now store.now (limits_of limits.now) gates.old res.old work.old answer.old) }
    ensures numbers_after { numbers.new ≡ reply_numbers (only_reply text.now store.now (limits_of limits.now) gates.old res.old work.old answer.old) }
    ensures bytes_after { page answer.new bytes.new ≡ write (page answer.old 0)
        (only_text text.now store.now (limits_of limits.now) gates.old res.old work.old answer.old) }
    ensures gates_after { gates.new ≡ only_gates text.now store.now (limits_of limits.now) gates.old res.old work.old answer.old }
    ensures res_after { res.new ≡ only_result text.now store.now (limits_of limits.now) gates.old res.old work.old answer.old }
    ensures work_after { work.new ≡ only_work text.now store.now (limits_of limits.now) gates.old res.old work.old answer.old }
{
    c_texts::text_channel(
        text, store, limits, gates, res, work, answer, bytes, numbers,
    )
}

// A scalar as mathematics writes it: how many bytes were put into `out`.
#[unsafe(no_mangle)]
pub extern "C" fn foreituka_number_text(x: &[i64; 5], out: &mut [u8]) -> usize
    ensures { page out.new result ≡ write (page out.old 0) (number_text (operand x.now)) }
{
    c_texts::number_text(x, out)
}

// Row and column of a Choi block on so many qubits, as the input and the output that they mean.
#[unsafe(no_mangle)]
pub extern "C" fn foreituka_entry_text(
    qubits: u32,
    row: usize,
    column: usize,
    out: &mut [u8],
) -> usize
    ensures { page out.new result ≡ write (page out.old 0) (entry_text qubits row column) }
{
    c_texts::entry_text(qubits, row, column, out)
}

// The bits of a store from bit 0 on.
#[unsafe(no_mangle)]
pub extern "C" fn foreituka_store_text(store: u64, bits: u32, out: &mut [u8]) -> usize
    ensures { page out.new result ≡ write (page out.old 0) (store_bits bits store) }
{
    c_texts::store_text(store, bits, out)
}

// The answer to the numbers of a circuit: how many bytes were put into `out`.
#[unsafe(no_mangle)]
pub extern "C" fn foreituka_list(
    text: &[u8],
    res: &mut [i64],
    work: &mut [i64],
    out: &mut [u8],
) -> usize
    ensures result_after { page out.new result ≡ write (page out.old 0) (listed.answer_of text.now res.old work.old) }
    ensures res_after { res.new ≡ listed.result_of text.now res.old work.old }
    ensures work_after { work.new ≡ listed.work_of text.now res.old work.old }
{
    listing::list(text, res, work, out)
}
