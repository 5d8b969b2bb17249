//! A small plant from start to end: two pumps in parallel, then a pipe in series.
#![tactic(auto)]

use diagram::limits::STORE;
use plant::{Plant, weighed};
use refusals::accepted;
use service::Service;

mod answers;
mod binary;
pub mod examples;
mod flows;
mod lines;
mod plant;
mod refusals;
mod service;
pub mod two;

// The same plant with a kind brought from outside the library: a part is up or down.
fn binary_plant(rt: &HostRuntime) -> anyhow::Result<()> {
    let parts = Plant {
        pump_a: [weighed(Service::Up, 9), weighed(Service::Down, 1)],
        pump_b: [weighed(Service::Up, 8), weighed(Service::Down, 2)],
        pipe: [weighed(Service::Up, 7), weighed(Service::Down, 3)],
    };
    let mut store = [weighed(Service::Down, 0); STORE];
    let drawn = accepted(parts.draw(&mut store), "drawing the plant")?;
    let answer = drawn
        .diagram
        .availability(&store, drawn.nodes.plant, Service::Up);
    let (up, all) = accepted(answer, "asking the plant")?;
    println!(rt; "as a plant that is up or down, it is up in {up} of {all} parts")?;
    Ok(())
}

fn main(rt: HostRuntime) -> anyhow::Result<()> {
    flows::flow_plant(&rt)?;
    binary_plant(&rt)
}
