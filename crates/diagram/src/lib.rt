//! Diagrams: the records of a plant's nodes, and the rows that are worked out in lent memory.
#![tactic(auto)]

pub mod diagram;
pub mod limits;
pub mod making;
pub mod node;
pub mod refusal;
pub mod table;
pub mod theorems;
pub mod work;
