// The limits that a caller may set, and their ceilings.
ghost use Rattle.std.specs.Prelude.{◌≡◌};
ghost use Rattle.circuit.specs.Limits.{ceilings, matrix_ceilings, branch_ceilings};

#[derive(Clone, Copy)]
pub struct Limits {
    pub max_qubits: u64,
    pub max_matrix_cells: u64,
    pub max_multiply_terms: u64,
    pub max_operations: u64,
    pub max_branches: u64,
    pub max_classical_bits: u64,
}

pub const MAX_QUBITS: u64 = 5;

const MAX_MATRIX_CELLS: u64 = 262144;

const MAX_MULTIPLY_TERMS: u64 = 10000000;

pub const MAX_OPERATIONS: u64 = 1024;

pub const MAX_BRANCHES: u64 = 64;

pub const MAX_CLASSICAL_BITS: u64 = 64;

impl Limits {
    // The defaults are the ceilings.
    pub fn defaults() -> Limits
        ensures { result ≡ ceilings }
    {
        Limits {
            max_qubits: MAX_QUBITS,
            max_matrix_cells: MAX_MATRIX_CELLS,
            max_multiply_terms: MAX_MULTIPLY_TERMS,
            max_operations: MAX_OPERATIONS,
            max_branches: MAX_BRANCHES,
            max_classical_bits: MAX_CLASSICAL_BITS,
        }
    }

    // Whether the four limits that circuit_unitary reads are at or below their ceilings.
    pub fn are_matrix_limits_low(self) -> bool
        ensures { result ≡ matrix_ceilings self }
    {
        (self.max_qubits <= MAX_QUBITS)
            & ((self.max_matrix_cells <= MAX_MATRIX_CELLS)
                & ((self.max_multiply_terms <= MAX_MULTIPLY_TERMS)
                    & (self.max_operations <= MAX_OPERATIONS)))
    }

    // Whether the other two are.
    pub fn are_branch_limits_low(self) -> bool
        ensures { result ≡ branch_ceilings self }
    {
        (self.max_branches <= MAX_BRANCHES) & (self.max_classical_bits <= MAX_CLASSICAL_BITS)
    }
}
