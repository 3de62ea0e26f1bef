// The limits of a plan, each named once.
pub const MAX_BYTES: usize = 4096;

pub const MAX_ENTRIES: u8 = 29;
// the three that every plan has, and its own
pub const MAX_TYPES: usize = 32;

pub const MAX_LEGS: u8 = 16;

pub const MAX_PARAMS: usize = 8;

pub const MAX_NODES: usize = 256;

pub const MAX_LEVELS: usize = 16;
