// How large a circuit's work is, and the formulas of the questions, where their operands are small.
// Kept (facts): that the gates are 1024 at most is known where the limits are; a type for it would be made at once and read in three formulas, one of pauli_judge. n ≤ 5 is asked where the rows are made of it, and Rows holds it from there on.
// Kept (twins): `is_within` and `has_room` of `Fits` are heads alone, whose bodies are the circuit's and the program's.
ghost use Rattle.std.specs.Prelude.{◌≡◌, Bool, ◌&&◌, ℕ, ◌≤◌, ◌^◌, min, leb};
ghost use Rattle.circuit.specs.Questions.{sizes_of, room_for, unitary_room};
ghost use Rattle.circuit.specs.Inner.Small.{max_splits, max_qubits, max_gates};
ghost use Rattle.circuit.specs.Inner.Numbers.{few_cells};
ghost use Rattle.circuit.specs.declared.limits.Limits.{Limits};
ghost use Rattle.circuit.specs.Sizes.{cells_needed, terms_needed, result_words, work_words, unitary_cells, unitary_terms, unitary_result, unitary_work};

use crate::footprint::Footprint;
use crate::limits::{Limits, MAX_BRANCHES};
use cells::CELL;
use std::marker::Model;

// As many splits as make MAX_BRANCHES.
pub const MAX_SPLITS: u64 = 6;

// On five qubits.
const MAX_ROWS: u64 = 32;

// 2^k
pub fn power(k: u64) -> u64
    requires { k ≤ max_splits }
    ensures { result ≡ 2 ^ k }
{
    1u64 << k
}

// A number that is MOST at most.
#[derive(Clone, Copy)]
pub struct Few<const MOST: u64> {
    number: u64,
}

impl<const MOST: u64> Model for Few<MOST> {
    ghost use Rattle.std.specs.Prelude.{ℕ, ◌≤◌};

    ghost Value = { ℕ };

    ghost view = { λ f. f.number };

    ghost invariant = { λ f. f.number ≤ MOST };

    ghost inverse = { λ k. record { number = k } };
}

impl<const MOST: u64> Few<MOST> {
    // Any number of them, also one that no circuit has.
    pub fn new(number: u64) -> Few<MOST>
        requires { number ≤ MOST }
        ensures { result ≡ number }
    {
        Few { number }
    }

    pub fn count(self) -> u64
        ensures { (result ≡ self.entry) × (result ≤ MOST) }
    {
        self.number
    }
}

// Branches, or the stores that they end with.
pub type Branches = Few<MAX_BRANCHES>;

impl Branches {
    // As many as so many splits make.
    pub fn of(splits: u64) -> Branches
        requires { splits ≤ max_splits }
        ensures { result ≡ 2 ^ splits }
    {
        Few {
            number: power(splits),
        }
    }
}

// The rows of a circuit's matrices.
pub type Rows = Few<MAX_ROWS>;

impl Rows {
    // Those of matrices on n qubits.
    pub fn of(n: u32) -> Rows
        requires { n ≤ max_qubits }
        ensures { result ≡ 2 ^ n }
    {
        Few {
            number: power(n as u64),
        }
    }

    pub fn square(self) -> u64
        ensures { (result ≡ self ^ 2) × (result ≤ 1024) }
    {
        let d = self.count();
        d * d
    }

    pub fn cube(self) -> u64
        ensures { (result ≡ self ^ 3) × (result ≤ 32768) }
    {
        let d = self.count();
        d * d * d
    }

    pub fn fourth(self) -> u64
        ensures { (result ≡ self ^ 4) × (result ≤ 1048576) }
    {
        let d = self.count();
        d * d * d * d
    }
}

fn cells_needed(branches: Branches, stores: Branches, rows: Rows) -> u64
    ensures { result ≡ cells_needed branches stores rows }
{
    stores.count() * rows.fourth() + (3 * branches.count() + 8) * rows.square()
}

pub fn terms_needed(gates: u64, branches: Branches, rows: Rows) -> u64
    requires { gates ≤ max_gates }
    ensures { result ≡ terms_needed gates branches rows }
{
    2 * gates * branches.count() * rows.cube() + branches.count() * rows.fourth()
}

pub fn result_words(stores: Branches, rows: Rows) -> u64
    ensures { result ≡ result_words stores rows }
{
    4 + stores.count() * (4 + 4 * rows.fourth())
}

fn work_words(branches: Branches, rows: Rows) -> u64
    ensures { result ≡ work_words branches rows }
{
    (2 * branches.count() + 2) * (CELL as u64 * rows.square() + 2)
}

fn unitary_cells(rows: Rows) -> u64
    ensures { result ≡ unitary_cells rows }
{
    8 * rows.square()
}

fn unitary_terms(gates: u64, rows: Rows) -> u64
    requires { gates ≤ max_gates }
    ensures { result ≡ unitary_terms gates rows }
{
    rows.cube() * gates
}

fn unitary_result(rows: Rows) -> u64
    ensures { result ≡ unitary_result rows }
{
    CELL as u64 * rows.square()
}

fn unitary_work(rows: Rows) -> u64
    ensures { result ≡ unitary_work rows }
{
    4 * (CELL as u64 * rows.square() + 2)
}

// What is held against limits and buffers: a circuit's sizes, or a program's.
pub trait Fits {
    ghost within: { Self → ℕ → Limits → Bool };

    ghost room: { Self → ℕ → ℕ → Bool };

    // Question 8, but for the qubits and the classical bits.
    fn is_within(&self, gates: u64, l: Limits) -> bool
        requires { gates ≤ max_gates }
        ensures { result ≡ within self.now gates l };

    // Question 10.
    fn has_room(&self, res: u64, work: u64) -> bool
        ensures { result ≡ room self.now res work };
}

#[derive(Clone, Copy)]
pub struct Sizes {
    pub branches: Branches,
    pub stores: Branches,
    pub rows: Rows,
}

impl Sizes {
    pub fn of(f: Footprint, n: u32) -> Sizes
        requires { (f.splits ≤ max_splits) × (n ≤ max_qubits) }
        ensures { result ≡ sizes_of f n }
    {
        Sizes {
            branches: Branches::of(f.splits),
            stores: Branches::of(f.splits.min(f.written)),
            rows: Rows::of(n),
        }
    }
}

impl Fits for Sizes {
    ghost within = { λ s g l. leb s.branches l.max_branches && few_cells l g s };

    ghost room = { room_for };

    fn is_within(&self, gates: u64, l: Limits) -> bool {
        let cells = cells_needed(self.branches, self.stores, self.rows);
        let terms = terms_needed(gates, self.branches, self.rows);
        (self.branches.count() <= l.max_branches)
            & ((cells <= l.max_matrix_cells) & (terms <= l.max_multiply_terms))
    }

    fn has_room(&self, res: u64, work: u64) -> bool {
        let needed = result_words(self.stores, self.rows);
        let scratch = work_words(self.branches, self.rows);
        (needed <= res) & (scratch <= work)
    }
}

// circuit_unitary's limits, but for the qubits and the operations.
pub fn is_unitary_within(rows: Rows, gates: u64, l: Limits) -> bool
    requires { gates ≤ max_gates }
    ensures { result ≡ leb (unitary_cells rows) l.max_matrix_cells && leb (unitary_terms gates rows) l.max_multiply_terms }
{
    let cells = unitary_cells(rows);
    let terms = unitary_terms(gates, rows);
    (cells <= l.max_matrix_cells) & (terms <= l.max_multiply_terms)
}

pub fn has_unitary_room(rows: Rows, res: u64, work: u64) -> bool
    ensures { result ≡ unitary_room rows res work }
{
    let needed = unitary_result(rows);
    let scratch = unitary_work(rows);
    (needed <= res) & (scratch <= work)
}
