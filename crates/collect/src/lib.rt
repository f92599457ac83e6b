// The channel of a bank's surviving branches, written as words.
#![tactic(auto)]

pub mod bank;
pub mod blocks;
pub mod links;
pub mod records;

ghost use Rattle.std.specs.Prelude.{◌≡◌};
ghost use Rattle.kraus.specs.Blocks.{survivors};
ghost use Rattle.collect.specs.Inner.Bank.{bank_in, Deliverable};
ghost use Rattle.collect.specs.Delivered.{branches_words, overwritten};

use branches::bank::Bank;
use links::{link_records, write_header};
use records::collect;

// Write the channel of a bank of `work`, with `bits` bits in a store, to the start of `res`.
pub fn deliver(res: &mut [i64], work: &[i64], bank: Bank, bits: u32)
    requires { Deliverable res.old work.now bank.at bank.d bits bank.count }
    ensures { res.new ≡ overwritten (branches_words bank.d bits (survivors (bank_in work.now bank.at bank.d bits bank.count))) res.old }
{
    let n = collect(res, work, bank);
    link_records(res, bank.d, n);
    write_header(res, bank.d, bits, n);
}
