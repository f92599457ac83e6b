// A record for each store, in the order of its first surviving branch.
// Kept (facts): that a branch starts a record, as in `blocks`.
// Kept (buffers): places in the result, as in `blocks`; n counts the records that it holds so far, and is no length.
ghost use Rattle.std.specs.Prelude.{◌≡◌, true, cond, ◌+◌, ◌*◌, ◌≤◌, length};
ghost use Rattle.std.proofs.lemmas.List.Edits.{sets};
ghost use Rattle.channel.specs.Layout.{header_size, record_size, channels};
ghost use Rattle.collect.specs.Inner.Bank as held;
ghost use Rattle.collect.specs.Inner.Bank.{store_of, starts, stores_of, record_of, recorded, recorded_branch, Begun};

use super::bank::Branch;
use super::blocks::Source;
use branches::bank::Bank;
use channel::layout::{EXPONENT, HEADER, record_size};

impl<'a> Source<'a> {
    // Write the record of its store, to `to` on, as the last of a chain; it is the first with its store.
    fn write_record(self, res: &mut [i64], to: usize)
        requires room { to + record_size (channels self.branch.bank.d) ≤ length res.old }
        requires first { let b = self.branch in starts b.work.now b.bank.at b.bank.d b.j ≡ true }
        ensures { let b = self.entry.branch in res.new ≡ sets res.old to (record_of b.work.now b.bank.at b.bank.d b.bank.count (store_of b.work.now b.bank.at b.bank.d b.j)) }
    {
        let work = self.branch.work;
        let s = self.branch.bank.store(self.branch.j);
        let low = work[s];
        let high = work[s + 1];
        res[to] = 0;
        res[to + 1] = low;
        res[to + 2] = high;
        self.write_block(res, to + EXPONENT);
    }

    // Write record n if it is the first to survive with its store; how many records there are then.
    fn collect(self, res: &mut [i64], n: usize) -> usize
        requires { let b = self.branch in Begun res.old n b.work.now b.bank.at b.bank.d b.bank.count b.j }
        ensures { let b = self.entry.branch in (result ≡ cond (starts b.work.now b.bank.at b.bank.d b.j) (n + 1) n) × (res.new ≡ recorded_branch res.old n b.work.now b.bank.at b.bank.d b.bank.count b.j) }
    {
        if !self.branch.is_alive() {
            return n;
        }
        if !self.branch.is_first() {
            return n;
        }
        let d = self.branch.bank.d;
        let to = HEADER + n * record_size(d * d);
        self.write_record(res, to);
        n + 1
    }
}

// Write a record for each store of a bank, end to end; how many there are.
pub fn collect(res: &mut [i64], work: &[i64], bank: Bank) -> usize
    requires { held.Bank work.now bank.at bank.d bank.count × (header_size + length (stores_of work.now bank.at bank.d bank.count) * record_size (channels bank.d) ≤ length res.old) }
    ensures { (result ≡ length (stores_of work.now bank.at bank.d bank.count)) × (res.new ≡ recorded res.old work.now bank.at bank.d bank.count) }
{
    let mut n = 0;
    for j in 0..bank.count {
        let branch = Branch { work, bank, j };
        let source = Source { branch };
        n = source.collect(res, n);
    }
    n
}
