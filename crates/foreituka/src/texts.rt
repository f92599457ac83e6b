// read_qasm and write_qasm.
// Kept (together): the names and the parameters are those of include/foreituka.h.
ghost use Rattle.std.specs.Prelude.{◌≡◌};
ghost use Rattle.std.specs.Result.{result_unwrap_or};
ghost use Rattle.verdict.specs.Verdict.{verdict_number, verdict_index};
ghost use Rattle.qasm.specs.Reading.{read_of, filled};
ghost use Rattle.qasm_writer.specs.Call.{write_reply, room_after};
ghost use Rattle.c_texts.specs.Texts.{reading_of, number_of, count_words, words_in, position_in};

// A circuit read from its text: the verdict's number, both counts in `counts`, how many words its gates have in `words`, and the place of a fault in `position`.
#[unsafe(no_mangle)]
pub extern "C" fn foreituka_read_qasm(
    text: &[u8],
    gates: &mut [u32],
    counts: &mut [u32; 2],
    words: &mut usize,
    position: &mut usize,
) -> u32
    ensures value { result ≡ number_of (reading_of text.now gates.old) }
    ensures gates_after { gates.new ≡ filled gates.old (read_of text.now) }
    ensures counts_after { counts.new ≡ count_words (reading_of text.now gates.old) }
    ensures words_after { words.new ≡ words_in (reading_of text.now gates.old) }
    ensures position_after { position.new ≡ position_in (reading_of text.now gates.old) }
{
    c_texts::openqasm::read_qasm(text, gates, counts, words, position)
}

// A circuit written as its text: the verdict's number, its index in `index`, and how many bytes the text has in `bytes`.
#[unsafe(no_mangle)]
pub extern "C" fn foreituka_write_qasm(
    qubits: u32,
    bits: u32,
    gates: &[u32],
    out: &mut [u8],
    bytes: &mut usize,
    index: &mut u64,
) -> u32
    ensures value { result ≡ verdict_number (write_reply qubits bits gates.now out.old) }
    ensures out_after { out.new ≡ room_after qubits bits gates.now out.old }
    ensures bytes_after { bytes.new ≡ result_unwrap_or (write_reply qubits bits gates.now out.old) 0 }
    ensures index_after { index.new ≡ verdict_index (write_reply qubits bits gates.now out.old) }
{
    c_texts::openqasm::write_qasm(qubits, bits, gates, out, bytes, index)
}
