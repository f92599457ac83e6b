// Pairs of circuits judged in list order under one allowance of multiply terms: the answer to one pair.
#![tactic(auto)]

pub mod serving;

ghost use Rattle.std.specs.Prelude.{◌≡◌};
ghost use Rattle.work_list.specs.Serving.{charge};

use compare::Comparison;
use verdict::Refusal;

// The answer to a pair: the left circuit is refused, or the right one; the pair is passed over, at this cost; or both channels are compared.
#[derive(Clone, Copy)]
pub enum Answer {
    LeftRefused(Refusal),
    RightRefused(Refusal),
    PassedOver {
        cost: u64,
    },
    Compared {
        cost: u64,
        comparison: Result<Comparison, Refusal>,
    },
}

impl Answer {
    // What is spent on an answer.
    pub fn charge(self) -> u64
        ensures { result ≡ charge self }
    {
        match self {
            Answer::LeftRefused(_) => 0,
            Answer::RightRefused(_) => 0,
            Answer::PassedOver { .. } => 0,
            Answer::Compared { cost, .. } => cost,
        }
    }
}
