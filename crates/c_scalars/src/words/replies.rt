// The numbers of replies that are no verdicts.
// Kept: they are the C interface's.
pub const SAME: u32 = 100;

pub const DIMENSIONS: u32 = 101;

pub const ENTRY: u32 = 102;

pub const EQUIVALENT: u32 = 103;

pub const DIFFERENT: u32 = 104;

pub const LEFT_REFUSED: u32 = 105;

pub const RIGHT_REFUSED: u32 = 106;
