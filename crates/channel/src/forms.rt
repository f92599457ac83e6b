// What a form keeps of each block: the sizes of blocks and records, and where records start.
ghost use Rattle.std.specs.Prelude.{◌≡◌, ◌+◌, ◌*◌, ◌-◌, ◌≤◌};
ghost use Rattle.channel.specs.Layout.{entry_size, from, row_start, block_size, record_size, form_of};
ghost use Rattle.channel.specs.WellFormed.{is_start};
ghost use Rattle.channel.specs.Inner.Kept.{Kept};

use super::layout::{ENTRY, HEADER, RECORD_HEAD};
use std::marker::Model;

// What is kept of a block: only the entries (r, c) with r ≤ c, and only n0 and n2 of an entry.
// Kept: two choices, each free of the other, and no failure: an enum of the four would be taken apart into these two wherever it is used.
#[derive(Clone, Copy)]
pub struct Parts {
    pub half: bool,
    pub plain: bool,
}

// A channel's own form keeps all.
pub const ALL: Parts = Parts {
    half: false,
    plain: false,
};

// The rows and columns of a block, and what is kept of it.
#[derive(Clone, Copy)]
pub struct Form {
    side: usize,
    parts: Parts,
}

impl Model for Form {
    ghost use Rattle.std.specs.Prelude.{◌≤◌};
    ghost use Rattle.channel.specs.Layout as layout;

    ghost Value = { layout.Form };

    ghost view = { λ a. layout.form_of a.side a.parts };

    ghost invariant = { λ a. a.side ≤ 256 };

    ghost inverse = { λ f. record { side = f.side; parts = record { half = f.half; plain = f.plain } } };
}

impl Form {
    // These parts of blocks of so many rows and columns.
    pub fn new(side: usize, parts: Parts) -> Form
        requires { side ≤ 256 }
        ensures { result ≡ form_of side parts }
    {
        Form { side, parts }
    }

    // These parts of blocks of as many rows and columns.
    pub fn keeping(self, parts: Parts) -> Form
        ensures { result ≡ form_of self.side parts }
    {
        Form {
            side: self.side,
            parts,
        }
    }

    // The rows and columns of a block.
    pub fn side(self) -> usize
        ensures is { result ≡ self.side }
        ensures small { result ≤ 256 }
    {
        self.side
    }

    // Whether only the entries (r, c) with r ≤ c are kept.
    pub fn is_half(self) -> bool
        ensures { result ≡ self.half }
    {
        self.parts.half
    }

    // Whether only n0 and n2 of an entry are kept.
    pub fn is_plain(self) -> bool
        ensures { result ≡ self.plain }
    {
        self.parts.plain
    }

    // The words of an entry.
    pub fn entry_size(self) -> usize
        ensures { result ≡ entry_size self.plain }
    {
        if self.parts.plain { 2 } else { ENTRY }
    }

    // The first column that is kept of row r.
    pub fn first_column(self, r: usize) -> usize
        ensures { result ≡ from self r }
    {
        if self.parts.half { r } else { 0 }
    }

    // The entries that are kept of the first r rows.
    pub fn row_start(self, r: usize) -> usize
        requires { r ≤ self.side }
        ensures is { result ≡ row_start self r }
        ensures small { result ≤ 65536 }
    {
        let w = self.side;
        if self.parts.half {
            return r * (2 * w + 1 - r) / 2;
        }
        r * w
    }

    // Where the words of entry (r, c), which is kept, begin in a block.
    pub fn place(self, r: usize, c: usize) -> usize
        requires { Kept self r c }
        ensures { result ≡ (row_start self r + (c - from self r)) * entry_size self.plain }
    {
        let start = self.row_start(r);
        let skipped = self.first_column(r);
        (start + (c - skipped)) * self.entry_size()
    }

    // The words of the numerators of a block.
    pub fn block_size(self) -> usize
        ensures is { result ≡ block_size self }
        ensures small { result ≤ 262144 }
    {
        let w = self.side;
        self.row_start(w) * self.entry_size()
    }

    // The words of the record of such a block.
    pub fn record_size(self) -> usize
        ensures { result ≡ record_size self }
    {
        RECORD_HEAD + self.block_size()
    }

    // Whether one of `count` records starts at index z.
    pub fn is_start(self, count: usize, z: i64) -> bool
        ensures { result ≡ is_start self count z }
    {
        if z < HEADER as i64 {
            return false;
        }
        let size = self.record_size();
        let a = z as usize - HEADER;
        (a % size == 0) & (a / size < count)
    }
}
