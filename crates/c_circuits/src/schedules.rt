// The call of the C interface on schedules.
ghost use Rattle.std.specs.Prelude.{◌≡◌};
ghost use Rattle.verdict.specs.Verdict.{verdict_number, verdict_index};
ghost use Rattle.schedule.specs.Questions.{schedule_verdict};

use c_scalars::words::report;
use schedule::Schedule;

// Whether a reordered gate list is a schedule by its table: the verdict's number, and its index in `index`.
pub fn judge_schedule(
    qubits: u32,
    bits: u32,
    old: &[u32],
    new: &[u32],
    table: &[u32],
    index: &mut u64,
) -> u32
    ensures value { result ≡ verdict_number (schedule_verdict qubits bits old.now new.now table.now) }
    ensures index_after { index.new ≡ verdict_index (schedule_verdict qubits bits old.now new.now table.now) }
{
    let v = Schedule { old, new, table }.judge(qubits, bits);
    report(&v, index)
}
