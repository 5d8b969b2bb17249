//! Kinds of performance and of weight: what they are, and the named ones.
//!
//! Performances with weights are what Ushakov, "Handbook of Reliability Engineering" (1994), calls
//! a generalized generating sequence, and Levitin, "The Universal Generating Function in
//! Reliability Analysis and Optimization" (2005), a universal generating function.
#![tactic(auto)]

pub mod capped;
pub mod declares;
pub mod delay;
pub mod effort;
pub mod fault_set;
pub mod first_fault;
pub mod flow;
pub mod or_out;
pub mod pair;
pub mod parts;
pub mod performance;
pub mod scenarios;
pub mod theorems;
pub mod values;
pub mod weight;
pub mod word;
