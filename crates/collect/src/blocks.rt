// The block of one store: integer products over one power of two, summed on and above the diagonal, and then brought to their shared form and mirrored; of a bank of one branch with few different entries, a row for each of these and its copies.
// Kept (facts): that a branch is the first to survive with its store is found before its block is written; as a ghost of Source it would be shown for each branch of which it is asked.
// Kept (buffers, together): a place in the result, and the exponent of what is written there. The contracts say what all of it becomes, record by record; a cut slice would tell of its own part alone.
ghost use Rattle.std.specs.Prelude.{◌≡◌, true, ◌+◌, ◌*◌, ◌<◌, ◌≤◌, length};
ghost use Rattle.std.proofs.lemmas.List.Edits.{sets};
ghost use Rattle.share.specs.Share.{with_numerators};
ghost use Rattle.collect.specs.Inner.Bank as held;
ghost use Rattle.collect.specs.Inner.Bank.{store_of, starts, largest, summed, shared_of, shared_words};

use super::bank::Branch;
use channel::layout::ENTRY;
use hermitian::share_block;
use overlaps::{add_upper, write_upper};
use repeats::{MOST, Repeats, find_firsts};

// A branch whose store is collected over its bank.
#[derive(Clone, Copy)]
pub struct Source<'a> {
    pub branch: Branch<'a>,
    pub ghost held: { held.Bank branch.work.now branch.bank.at branch.bank.d branch.bank.count },
    pub ghost inside: { branch.j < branch.bank.count },
}

impl<'a> Source<'a> {
    // The largest exponent of its bank's branches: all factors are brought over that power of two.
    fn largest_exponent(self) -> u32
        ensures { let b = self.entry.branch in result ≡ largest b.work.now b.bank.at b.bank.d b.bank.count }
    {
        let work = self.branch.work;
        let bank = self.branch.bank;
        let n = bank.d * bank.d;
        let mut e = 0u32;
        for j in 0..bank.count {
            let at = bank.branch(j) + n * ENTRY;
            e = e.max(work[at] as u32);
        }
        e
    }

    // Write the sums of its store, of factors over 2^e, to `out` on, on and above the diagonal of its block; it is the first with its store. A row where its entry is zero is made zero below the diagonal too.
    fn sum_block(self, res: &mut [i64], out: usize, e: u32)
        requires room { let d = self.branch.bank.d in out + d * d * (d * d) * 4 ≤ length res.old }
        requires first { let b = self.branch in starts b.work.now b.bank.at b.bank.d b.j ≡ true }
        requires largest { let b = self.branch in e ≡ largest b.work.now b.bank.at b.bank.d b.bank.count }
        ensures { let b = self.entry.branch in let d = b.bank.d in res.new ≡ with_numerators res.old out (d * d * (d * d)) (summed res.old out b.work.now b.bank.at d e b.j b.bank.count) }
    {
        let work = self.branch.work;
        let bank = self.branch.bank;
        let store = self.branch.store();
        let w = bank.d * bank.d;
        let first = self.branch.j;
        write_upper(res, out, work, bank.branch(first), w, e);
        for j in first + 1..bank.count {
            let branch = Branch { work, bank, j };
            if branch.has_store(store) {
                add_upper(res, out, work, bank.branch(j), w, e);
            }
        }
    }

    // Write the numerators of the block of its store to `out` on, in their shared form; their exponent. It is the first with its store.
    fn write_shared(self, res: &mut [i64], out: usize) -> u32
        requires room { let d = self.branch.bank.d in out + d * d * (d * d) * 4 ≤ length res.old }
        requires first { let b = self.branch in starts b.work.now b.bank.at b.bank.d b.j ≡ true }
        ensures exponent { let b = self.entry.branch in result ≡ (shared_of b.work.now b.bank.at b.bank.d b.bank.count (store_of b.work.now b.bank.at b.bank.d b.j)).exp }
        ensures numerators { let b = self.entry.branch in let d = b.bank.d in res.new ≡ with_numerators res.old out (d * d * (d * d)) (shared_of b.work.now b.bank.at d b.bank.count (store_of b.work.now b.bank.at d b.j)).num }
    {
        let work = self.branch.work;
        let bank = self.branch.bank;
        let w = bank.d * bank.d;
        let e = self.largest_exponent();
        if bank.count == 1 {
            let k = bank.branch(self.branch.j);
            let mut firsts = [0u8; MOST];
            if find_firsts(&mut firsts, work, k, w) {
                let repeats = Repeats {
                    work,
                    k,
                    w,
                    firsts: &firsts,
                };
                return repeats.write(res, out, e + e);
            }
        }
        self.sum_block(res, out, e);
        share_block(res, out, w, e + e)
    }

    // Write the exponent and then the numerators of the block of its store to `to` on; it is the first with its store.
    pub fn write_block(self, res: &mut [i64], to: usize)
        requires room { let d = self.branch.bank.d in to + 1 + d * d * (d * d) * 4 ≤ length res.old }
        requires first { let b = self.branch in starts b.work.now b.bank.at b.bank.d b.j ≡ true }
        ensures { let b = self.entry.branch in let d = b.bank.d in res.new ≡ sets res.old to (shared_words b.work.now b.bank.at d b.bank.count (store_of b.work.now b.bank.at d b.j)) }
    {
        let shared = self.write_shared(res, to + 1);
        res[to] = shared as i64;
    }
}
