//! How much there may be of a diagram, and the room that it takes in a store.

/// The most nodes of a diagram.
pub const NODES: usize = 48;

/// The fewest children that are joined in series or in parallel.
pub const FEWEST_CHILDREN: usize = 2;

/// The most children that are joined in series or in parallel.
pub const CHILDREN: usize = 8;

/// The arms of a bridge.
pub const ARMS: usize = 5;

/// The most states of a part, and the most terms of a row.
pub const TERMS: usize = 64;

/// The most terms of an arm of a bridge.
pub const ARM_TERMS: usize = 24;

/// The places of all the rows, which stand first in a store.
pub const ROWS: usize = NODES * TERMS;

/// The terms that a store has at least: the places of all the rows, and two working rows.
pub const STORE: usize = ROWS + 2 * TERMS;
