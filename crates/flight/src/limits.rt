// The bounds of a flight, each named once.
// evaluations begun; the next one ends the flight as LONG
pub const MAX_BEGUN: u32 = 2048;

// the depth of an evaluation; one deeper ends the flight as DEEP
pub const MAX_DEPTH: u16 = 128;

// entries of the log; one more ends the flight as FULL
pub const MAX_ENTRIES: usize = 4096;

// values: three that every flight has, and at most one for each evaluation
pub const MAX_VALUES: usize = 2051;
