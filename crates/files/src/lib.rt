//! Model files in, reports out.
#![tactic(auto)]

pub mod analysis;
pub mod demands;
pub mod fault;
mod front;
pub mod host;
pub mod limits;
pub mod model_file;
mod models;
mod named_words;
mod nodes;
mod page;
pub mod read;
mod record;
mod report;
mod states;
#[cfg(test)]
mod tests;
pub mod theorems;
pub mod words;
