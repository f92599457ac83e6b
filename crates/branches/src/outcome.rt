// A branch's store, written with an outcome.
// Kept (buffers): places in the buffer, of which one is read and one is written.
// Kept (facts): an outcome is the number of an operator, 0 or 1, and is added to a word as one; a bool would be made of it by `step`, and turned into the number again in `with_bit` and in the clauses of all three.
ghost use Rattle.std.specs.Prelude.{◌≡◌, true, ◌+◌, ◌<◌, ◌≤◌, ◌^◌, ◌-◌, length, unwrap_or};
ghost use Rattle.std.proofs.lemmas.List.Edits.{sets};
ghost use Rattle.algebra.specs.Words.{up_to};
ghost use Rattle.store.specs.Store.{max_word};
ghost use Rattle.store.specs.Inner.Held.{StoreAt};
ghost use Rattle.branches.specs.Inner.Store.{no_bit, with_bit, outcome_word, outcome_words};

// x with bit k made v.
fn with_bit(x: u64, k: u32, v: u64) -> u64
    requires { (x < 2 ^ 32) × ((k < 32) × (v ≤ 1)) }
    ensures { result ≡ with_bit x k v }
{
    let p = 1u64 << k;
    x - x / p % 2 * p + v * p
}

// The word of the bits from `first` on, with bit `bit` made v where there is such a bit and it is one of its 32.
fn outcome_word(w: i64, first: u32, bit: Option<u32>, v: u64) -> i64
    requires { (up_to max_word w ≡ true) × ((v ≤ 1) × (first ≤ 32)) }
    ensures { result ≡ outcome_word first (unwrap_or bit no_bit) v w }
{
    let Some(b) = bit else {
        return w;
    };
    if b < first {
        return w;
    }
    let k = b - first;
    if 31 < k {
        return w;
    }
    let x = with_bit(w as u64, k, v);
    x as i64
}

// Write the store at `from` to `to`, with bit `bit` made v where there is such a bit.
pub fn write_store(work: &mut [i64], from: usize, to: usize, bit: Option<u32>, v: u64)
    requires { (v ≤ 1) × ((to + 2 ≤ length work.old) × StoreAt work.old from) }
    ensures { work.new ≡ sets work.old to (outcome_words work.old from (unwrap_or bit no_bit) v) }
{
    let low = outcome_word(work[from], 0, bit, v);
    let high = outcome_word(work[from + 1], 32, bit, v);
    work[to] = low;
    work[to + 1] = high;
}
