// Mask forms of nodes.
ghost use Rattle.std.specs.Prelude.{◌≡◌, ◌<◌, length};
ghost use Rattle.pauli_nodes.specs.Inner.Masks.{parity, identity_mask, pauli_mask, turn_mask, times_mask, is_hermitian, ref_mask};
ghost use Rattle.pauli_words.specs.Inner.Code.{letter, reference_in};
ghost use Rattle.pauli_words.specs.Inner.Masks.{mask_fits};

use crate::nodes::{Pauli, Reference};
use std::marker::Model;

// Which qubits a node flips (x), which it signs (z), and a power of i (turns).
#[derive(Clone, Copy)]
pub struct Mask {
    x: u8,
    z: u8,
    turns: u8,
}

impl Model for Mask {
    ghost use Rattle.std.specs.Prelude.{◌<◌};
    ghost use Rattle.pauli_nodes.specs.Inner.Masks.{Mask as Form, mask};

    ghost Value = { Form };

    ghost view = { λ m. mask m.x m.z m.turns };

    ghost invariant = { λ m. (m.x < 32) × (m.z < 32) × (m.turns < 4) };

    ghost inverse = { λ m. record { x = m.x; z = m.z; turns = m.turns } };
}

// How many of five bits are 1, modulo 2.
#[tactic(auto, using(crate::proofs::Parity::ones_parity))]
fn parity_of(m: u8) -> u8
    requires { m < 32 }
    ensures { (result ≡ parity m) × (result < 2) }
{
    (m.count_ones() % 2) as u8
}

impl Mask {
    // Of the identity.
    pub fn identity() -> Mask
        ensures { result ≡ identity_mask }
    {
        Mask {
            x: 0,
            z: 0,
            turns: 0,
        }
    }

    // Of a Pauli of the qubit of weight w.
    pub fn single(w: u8, pauli: Pauli) -> Mask
        requires { w < 32 }
        ensures { result ≡ pauli_mask w (letter pauli) }
    {
        let (x, z, turns) = match pauli {
            Pauli::I => (0, 0, 0),
            Pauli::X => (w, 0, 0),
            Pauli::Y => (w, w, 1),
            Pauli::Z => (0, w, 0),
        };
        Mask { x, z, turns }
    }

    // With k turns more.
    pub fn turned(self, k: u32) -> Mask
        ensures { result ≡ turn_mask k self }
    {
        Mask {
            x: self.x,
            z: self.z,
            turns: ((k % 4) as u8 + self.turns) % 4,
        }
    }

    pub fn times(self, other: Mask) -> Mask
        ensures { result ≡ times_mask self other }
    {
        let sign = parity_of(self.z & other.x);
        Mask {
            x: self.x ^ other.x,
            z: self.z ^ other.z,
            turns: (self.turns + other.turns + 2 * sign) % 4,
        }
    }

    // Whether the matrix equals its own adjoint.
    pub fn is_hermitian(self) -> bool
        ensures { result ≡ is_hermitian self }
    {
        (self.turns + parity_of(self.z & self.x)) % 2 == 0
    }

    pub fn flips(self) -> usize
        ensures { (result ≡ self.x) × (result < 32) }
    {
        self.x as usize
    }

    pub fn signs(self) -> usize
        ensures { (result ≡ self.z) × (result < 32) }
    {
        self.z as usize
    }

    pub fn turns(self) -> u32
        ensures { (result ≡ self.turns) × (result < 4) }
    {
        self.turns as u32
    }
}

// The mask form of a node that is there, with its turns.
pub fn referred(masks: &[Mask], a: Reference) -> Mask
    requires { a.node < length masks.now }
    ensures { result ≡ ref_mask masks.now (reference_in a) }
{
    masks[a.node as usize].turned(a.turns)
}

// Whether the node that an axis names is there, and the axis equals its own adjoint.
pub fn is_axis(masks: &[Mask], axis: Reference) -> bool
    ensures { result ≡ mask_fits masks.now (reference_in axis) }
{
    (axis.node as usize) < masks.len() && referred(masks, axis).is_hermitian()
}
