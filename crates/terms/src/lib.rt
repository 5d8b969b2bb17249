//! Terms, the rows that lists of terms have, and the rows of combinations.
#![tactic(auto)]

pub mod bridge;
pub mod combine;
pub mod drawings;
pub mod merge;
pub mod row;
pub mod sums;
pub mod term;
pub mod theorems;
