// Cases of judge_schedule.
// Kept (buffers): the places in the text are those of crate replay, which says why.
ghost use Rattle.std.specs.Prelude.{◌≡◌};
ghost use Rattle.replay_cases.specs.Schedules.{schedule_case};

use replay::answers::check_verdict;
use replay::numeral::{low, read};
use replay::record::Record;
use replay::words::read_numbers;
use schedule::Schedule;

// Room for the words of a gate list, and for a table.
const WORDS: usize = 64;

// Both counts, the old list, the new one, the table; verdict and index.
#[inline(never)]
pub fn schedule_case(text: &[u8], at: usize) -> Record
    ensures { result ≡ schedule_case text.now at }
{
    let mut old_room = [0u32; WORDS];
    let mut new_room = [0u32; WORDS];
    let mut table_room = [0u32; WORDS];
    let qubits = read(text, at);
    let bits = read(text, qubits.next);
    let old = read_numbers(text, bits.next, &mut old_room);
    let new = read_numbers(text, old.next, &mut new_room);
    let table = read_numbers(text, new.next, &mut table_room);
    let schedule = Schedule {
        old: old.words,
        new: new.words,
        table: table.words,
    };
    let v = schedule.judge(low(qubits.size), low(bits.size));
    check_verdict(Record::begin(table.next), text, v)
}
