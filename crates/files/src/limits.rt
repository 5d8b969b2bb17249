//! How much there may be of a model file, and of the report on it.
use diagram::limits::{NODES, TERMS};

/// The fewest records of a file: one that makes a node, and the demands.
pub const FEWEST_RECORDS: usize = 2;

/// The most records of a file: one for each node, and the demands.
pub const RECORDS: usize = NODES + 1;

/// The most demands of a file.
pub const DEMANDS: usize = 16;

/// The bytes of a demand: a performance, as two words.
pub const DEMAND_BYTES: usize = 8;

/// The bytes of a state: a performance, and a weight.
pub const STATE_BYTES: usize = DEMAND_BYTES + 8;

/// The places of a room for states or children: as many as a count of one byte may tell.
pub const ROOM: usize = 255;

/// What stands for a record where none is at fault.
pub const NO_RECORD: u8 = 255;

// The digits of a number in a report, at most: it has 32 bits.
pub(crate) const DIGITS: usize = 10;

/// The bytes of the line of a demand, at most: words, blanks and its end, and four numbers.
pub const NEED_LINE: usize = 16 + 4 * DIGITS;

/// The bytes of the line of a term, at most: words, blanks and its end, and three numbers.
pub const TERM_LINE: usize = 8 + 3 * DIGITS;

/// The bytes of a report, at most. An output of so many has room for each.
pub const LONGEST_REPORT: usize = DEMANDS * NEED_LINE + TERMS * TERM_LINE;

/// How many bytes of its input the program `analyse` looks at.
pub const LOOKED_AT: u64 = 50_001;
