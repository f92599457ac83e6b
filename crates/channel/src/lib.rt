// Channels as words: their layout, well-formedness, lookup by store.
#![tactic(auto)]

ghost use Rattle.std.specs.Prelude.{◌≡◌, ◌*◌, ◌≤◌};
ghost use Rattle.channel.specs.Layout.{form_of};

pub mod forms;
pub mod layout;
pub mod lookup;
pub mod records;
pub mod well_formed;

use forms::{Form, Parts};

// The header of a channel.
#[derive(Clone, Copy)]
pub struct Shape {
    pub dim: usize,
    pub bits: u32,
    pub count: usize,
}

impl Shape {
    // The form that keeps these parts of a channel's blocks.
    pub fn form(self, parts: Parts) -> Form
        requires { self.dim ≤ 16 }
        ensures { result ≡ form_of (self.dim * self.dim) parts }
    {
        Form::new(self.dim * self.dim, parts)
    }
}
