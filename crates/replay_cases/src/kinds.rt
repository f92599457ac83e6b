// The cases, by the numbers of their kinds.
// Kept (buffers): the places in the text are those of crate replay, which says why.
// Kept (kinds, switches): the numbers of the text are read here and nowhere else, and each case is a call of its own.
// Kept: no case is inlined. Each lends its calls buffers of its own; written into one function, all of them would be that function's, and made anew for each case of any kind.
ghost use Rattle.replay_cases.specs.Kinds as kinds;

use crate::channels::words_case;
use crate::circuits::circuit_case;
use crate::compared::compare_case;
use crate::edits::edit_case;
use crate::listings::listing_case;
use crate::lists::list_case;
use crate::numbers::{phase_case, scalar_case};
use crate::programs::program_case;
use crate::schedules::schedule_case;
use crate::texts::{read_case, write_case};
use replay::progress::Cases;
use replay::record::Record;

// A call on one circuit: circuit_unitary, layered_channel, plain_channel or circuit_channel.
#[derive(Clone, Copy)]
pub enum CircuitCall {
    Unitary,
    Layered,
    Plain,
    Channel,
}

// A call on a Pauli program: judge_pauli or pauli_channel.
#[derive(Clone, Copy)]
pub enum PauliCall {
    Judged,
    Run,
}

// A scalar call; the phase test; a call on one circuit; the comparison of two circuits' channels; the calls on two channels; the listing of a text; a text that is read, and a circuit that is
// written; a schedule; a call on a Pauli program; a list of pairs; an edit of a kept circuit.
#[derive(Clone, Copy)]
pub enum RecordedCase {
    Scalars,
    Phase,
    Circuit(CircuitCall),
    Compared,
    Channels,
    Listed,
    Read,
    Written,
    Schedule,
    Program(PauliCall),
    Pairs,
    Edit,
}

impl Cases for RecordedCase {
    ghost case_of = { kinds.kind_of };

    ghost record_of = { kinds.record_of };

    fn of(kind: u64) -> RecordedCase {
        match kind {
            0 => RecordedCase::Scalars,
            1 => RecordedCase::Phase,
            2 => RecordedCase::Circuit(CircuitCall::Unitary),
            3 => RecordedCase::Circuit(CircuitCall::Channel),
            4 => RecordedCase::Compared,
            5 => RecordedCase::Channels,
            6 => RecordedCase::Listed,
            7 => RecordedCase::Circuit(CircuitCall::Layered),
            8 => RecordedCase::Read,
            9 => RecordedCase::Written,
            10 => RecordedCase::Schedule,
            17 => RecordedCase::Program(PauliCall::Judged),
            18 => RecordedCase::Program(PauliCall::Run),
            23 => RecordedCase::Circuit(CircuitCall::Plain),
            24 => RecordedCase::Pairs,
            _ => RecordedCase::Edit,
        }
    }

    fn replay(self, text: &[u8], at: usize) -> Record {
        match self {
            RecordedCase::Scalars => scalar_case(text, at),
            RecordedCase::Phase => phase_case(text, at),
            RecordedCase::Circuit(call) => circuit_case(call, text, at),
            RecordedCase::Compared => compare_case(text, at),
            RecordedCase::Channels => words_case(text, at),
            RecordedCase::Listed => listing_case(text, at),
            RecordedCase::Read => read_case(text, at),
            RecordedCase::Written => write_case(text, at),
            RecordedCase::Schedule => schedule_case(text, at),
            RecordedCase::Program(call) => program_case(call, text, at),
            RecordedCase::Pairs => list_case(text, at),
            RecordedCase::Edit => edit_case(text, at),
        }
    }
}
