// judge_schedule.
// Kept (together): the names and the parameters are those of include/foreituka.h.
ghost use Rattle.std.specs.Prelude.{◌≡◌};
ghost use Rattle.verdict.specs.Verdict.{verdict_number, verdict_index};
ghost use Rattle.schedule.specs.Questions.{schedule_verdict};

// Whether a reordered gate list is a schedule by its table: the verdict's number, and its index in `index`.
#[unsafe(no_mangle)]
pub extern "C" fn foreituka_judge_schedule(
    qubits: u32,
    bits: u32,
    old: &[u32],
    new: &[u32],
    table: &[u32],
    index: &mut u64,
) -> u32
    ensures value { result ≡ verdict_number (schedule_verdict qubits bits old.now new.now table.now) }
    ensures index_after { index.new ≡ verdict_index (schedule_verdict qubits bits old.now new.now table.now) }
{
    c_circuits::schedules::judge_schedule(qubits, bits, old, new, table, index)
}
