// What a call answers: what it was asked for, or a refusal with document 01's number and, where it names one, an index.
#![tactic(auto)]

ghost use Rattle.std.specs.Prelude.{◌≡◌};
ghost use Rattle.verdict.specs.Verdict.{refusal_number, refusal_index, verdict_number, verdict_index};

// In the order of document 01's numbers, from 1 to 25.
#[derive(Clone, Copy, PartialEq, Eq)]
pub enum Refusal {
    OverLimit,
    UnsupportedAt(usize),
    OperandAt(usize),
    BadStore,
    MalformedAt(usize),
    OverCeiling,
    TooHeavy,
    ShortBuffer,
    TooLarge,
    Malformed,
    BadLayers,
    ClashAt(usize),
    BadText,
    UnknownNameAt(usize),
    NotScheduleAt(usize),
    ZeroBlock,
    BadNodeAt(usize),
    BadAxisAt(usize),
    NoOutcomeAt(usize),
    NoPlace,
    NoGate,
    NotHermitianAt(usize),
    NotPlainAt(usize),
    TooManyPairs,
    BadCounts,
}

// The answer of a call that hands nothing back.
pub type Verdict = Result<(), Refusal>;

impl Refusal {
    pub fn number(self) -> u32
        ensures { result ≡ refusal_number self }
    {
        match self {
            Refusal::OverLimit => 1,
            Refusal::UnsupportedAt(_) => 2,
            Refusal::OperandAt(_) => 3,
            Refusal::BadStore => 4,
            Refusal::MalformedAt(_) => 5,
            Refusal::OverCeiling => 6,
            Refusal::TooHeavy => 7,
            Refusal::ShortBuffer => 8,
            Refusal::TooLarge => 9,
            Refusal::Malformed => 10,
            Refusal::BadLayers => 11,
            Refusal::ClashAt(_) => 12,
            Refusal::BadText => 13,
            Refusal::UnknownNameAt(_) => 14,
            Refusal::NotScheduleAt(_) => 15,
            Refusal::ZeroBlock => 16,
            Refusal::BadNodeAt(_) => 17,
            Refusal::BadAxisAt(_) => 18,
            Refusal::NoOutcomeAt(_) => 19,
            Refusal::NoPlace => 20,
            Refusal::NoGate => 21,
            Refusal::NotHermitianAt(_) => 22,
            Refusal::NotPlainAt(_) => 23,
            Refusal::TooManyPairs => 24,
            Refusal::BadCounts => 25,
        }
    }

    // Kept: `number` and `index` are the numbers of the C interface, which has no Option.
    // 0 where the refusal names no index.
    pub fn index(self) -> usize
        ensures { result ≡ refusal_index self }
    {
        match self {
            Refusal::UnsupportedAt(i) => i,
            Refusal::OperandAt(i) => i,
            Refusal::MalformedAt(i) => i,
            Refusal::ClashAt(i) => i,
            Refusal::UnknownNameAt(i) => i,
            Refusal::NotScheduleAt(i) => i,
            Refusal::BadNodeAt(i) => i,
            Refusal::BadAxisAt(i) => i,
            Refusal::NoOutcomeAt(i) => i,
            Refusal::NotHermitianAt(i) => i,
            Refusal::NotPlainAt(i) => i,
            _ => 0,
        }
    }
}

// An answer's number: 0 where the call was accepted.
pub fn number<T>(answer: &Result<T, Refusal>) -> u32
    ensures { result ≡ verdict_number answer.now }
{
    match answer {
        Ok(_) => 0,
        Err(refusal) => refusal.number(),
    }
}

// An answer's index: 0 where it names none.
pub fn index<T>(answer: &Result<T, Refusal>) -> usize
    ensures { result ≡ verdict_index answer.now }
{
    match answer {
        Ok(_) => 0,
        Err(refusal) => refusal.index(),
    }
}
