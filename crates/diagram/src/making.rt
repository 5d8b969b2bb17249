//! How a node is made.
use crate::limits::ARMS;
use terms::term::{Term, Way};

/// How a node is made, by `Diagram::make`. Children and arms are numbers of nodes.
#[derive(Clone, Copy)]
pub enum Making<'a, P, W> {
    /// A part, from states in any order.
    Added(&'a [Term<P, W>]),
    /// A node joined in series or in parallel from these children, in this order.
    Joined(Way, &'a [usize]),
    /// A bridge, from its arms a to e.
    Bridged([usize; ARMS]),
}
