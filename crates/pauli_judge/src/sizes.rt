// The formulas of the questions, of a program that asks for little enough.
// Kept (twins): cells, terms and work of `circuit::sizes` with the nodes of a program, and in work + 3 for + 2; the specification states each formula by itself.
// Kept (facts): n ≤ 5 is asked by `of` alone, which makes the sizes of it; at most 1,024 operations where they are multiplied and in `is_within`, which `Fits` heads: they are counted apart from `ProgramSizes`.
ghost use Rattle.std.specs.Prelude.{◌≡◌, ◌&&◌, ◌≤◌, leb};
ghost use Rattle.circuit.specs.Questions.{sizes_of};
ghost use Rattle.circuit.specs.Inner.Small.{max_splits, max_qubits, max_gates};
ghost use Rattle.pauli_words.specs.Inner.Masks.{max_nodes};
ghost use Rattle.pauli_judge.specs.Inner.Numbers.{few_program_cells};
ghost use Rattle.pauli_judge.specs.Questions.{program_room};
ghost use Rattle.pauli_judge.specs.Sizes.{program_cells, program_terms, program_work};

use crate::footprint::ProgramFootprint;
use cells::CELL;
use circuit::limits::Limits;
use circuit::sizes::{Fits, Sizes, result_words};

// The nodes that a program names, and its branches, stores and rows.
#[derive(Clone, Copy)]
pub struct ProgramSizes {
    pub nodes: u64,
    pub sizes: Sizes,
    pub ghost few: { nodes ≤ max_nodes },
}

impl ProgramSizes {
    // Of a program on n qubits.
    pub fn of(f: ProgramFootprint, n: u32) -> ProgramSizes
        requires { (f.nodes ≤ max_nodes) × (f.counts.splits ≤ max_splits) × (n ≤ max_qubits) }
        ensures { (result.nodes ≡ f.nodes) × (result.sizes ≡ sizes_of f.counts n) }
    {
        ProgramSizes {
            nodes: f.nodes,
            sizes: Sizes::of(f.counts, n),
        }
    }

    fn cells_needed(&self) -> u64
        ensures { let s = self.now.sizes in result ≡ program_cells self.now.nodes s.branches s.stores s.rows }
    {
        let s = &self.sizes;
        s.stores.count() * s.rows.fourth()
            + (3 * s.branches.count() + self.nodes + 8) * s.rows.square()
    }

    fn terms_needed(&self, gates: u64) -> u64
        requires { gates ≤ max_gates }
        ensures { let s = self.now.sizes in result ≡ program_terms self.now.nodes gates s.branches s.rows }
    {
        let s = &self.sizes;
        (2 * gates * s.branches.count() + self.nodes) * s.rows.cube()
            + s.branches.count() * s.rows.fourth()
    }

    pub fn work_words(&self) -> u64
        ensures { let s = self.now.sizes in result ≡ program_work self.now.nodes s.branches s.rows }
    {
        let s = &self.sizes;
        (2 * s.branches.count() + self.nodes + 2) * (CELL as u64 * s.rows.square() + 3)
    }
}

impl Fits for ProgramSizes {
    ghost within = { λ s p l. leb s.sizes.branches l.max_branches && few_program_cells s.nodes l p s.sizes };

    ghost room = { λ s res work. program_room s.nodes s.sizes res work };

    fn is_within(&self, gates: u64, l: Limits) -> bool {
        let cells = self.cells_needed();
        let terms = self.terms_needed(gates);
        (self.sizes.branches.count() <= l.max_branches)
            & ((cells <= l.max_matrix_cells) & (terms <= l.max_multiply_terms))
    }

    fn has_room(&self, res: u64, work: u64) -> bool {
        let needed = result_words(self.sizes.stores, self.sizes.rows);
        let scratch = self.work_words();
        (needed <= res) & (scratch <= work)
    }
}
