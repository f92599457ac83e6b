// A bank's branches, read: their stores, and which survive.
ghost use Rattle.std.specs.Prelude.{◌≡◌};
ghost use Rattle.collect.specs.Inner.Bank as held;
ghost use Rattle.collect.specs.Inner.Bank.{store_of, survives, has, is_first, Branches};

use branches::bank::Bank;
use rows::is_zero;
use store::store_from;

// Branch j of a bank, which lies in the words.
#[derive(Clone, Copy)]
pub struct Branch<'a> {
    pub work: &'a [i64],
    pub bank: Bank,
    pub j: usize,
    pub ghost lies: { held.Branch work.now bank.at bank.d j },
}

impl<'a> Branch<'a> {
    // Its store.
    pub fn store(self) -> u64
        ensures { let b = self.entry in result ≡ store_of b.work.now b.bank.at b.bank.d b.j }
    {
        store_from(self.work, self.bank.store(self.j))
    }

    // Whether some entry of it is not zero.
    pub fn is_alive(self) -> bool
        ensures { let b = self.entry in result ≡ survives b.work.now b.bank.at b.bank.d b.j }
    {
        let d = self.bank.d;
        !is_zero(self.work, self.bank.branch(self.j), d * d)
    }

    // Whether it survives with this store.
    pub fn has_store(self, store: u64) -> bool
        ensures { let b = self.entry in result ≡ has b.work.now b.bank.at b.bank.d store b.j }
    {
        self.store() == store && self.is_alive()
    }

    // Whether no branch before it survives with its store.
    pub fn is_first(self) -> bool
        requires { Branches self.work.now self.bank.at self.bank.d self.j }
        ensures { let b = self.entry in result ≡ is_first b.work.now b.bank.at b.bank.d b.j }
    {
        let Branch { work, bank, j: b } = self;
        let store = self.store();
        for j in 0..b {
            let before = Branch { work, bank, j };
            if before.has_store(store) {
                return false;
            }
        }
        true
    }
}
