//! A plant by the grades of its products, with a kind of performance and a kind of weight that are
//! brought from outside the libraries.
#![tactic(auto)]

mod answers;
pub mod batches;
mod batches_weight;
mod file;
pub mod grade;
mod grade_kind;
mod numbered;
mod plant;
pub mod share;
pub mod theorems;
mod words;

fn main(rt: HostRuntime) -> anyhow::Result<()> {
    plant::by_calls(&rt)?;
    file::by_file(&rt)
}
