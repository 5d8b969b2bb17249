//! The plant by what flows through it.
ghost use Rattle.std.specs.Prelude.{◌≡◌, IfOk};
ghost use Rattle.diagram.specs.Shown.{records};
ghost use Rattle.worked.specs.Examples.{pump_a, pump_b, pipe};
ghost use Rattle.worked.specs.Flows.{PlantAnswers, RedrawnAnswers, PumpsAlone};
ghost use Rattle.worked.specs.Flows.{Overhauled, OverhaulCalls};

use crate::answers::{CopiedRow, RowAndNeeds};
use crate::lines::Line;
use crate::plant::{Drawn, Plant, state};
use crate::refusals::{accepted, refused};
use crate::two::availability_of_two;
use anyhow::ensure;
use diagram::limits::STORE;
use diagram::refusal::Refusal;
use diagram::theorems::runs_are_right;
use kinds::values::{Flow, Parts};
use terms::term::{Term, Way};

type State = Term<Flow, Parts>;

// Pump A passes 3 in 9 of 10 parts, pump B passes 2 in 8 of 10, and the pipe passes 4 in 7 of 10.
fn parts() -> Plant<Flow>
    ensures { result ≡ record { pump_a = pump_a; pump_b = pump_b; pipe = pipe } }
{
    Plant {
        pump_a: [state(0, 1), state(3, 9)],
        pump_b: [state(0, 2), state(2, 8)],
        pipe: [state(4, 7), state(0, 3)],
    }
}

pub(crate) fn flow_plant(rt: &HostRuntime) -> anyhow::Result<()> {
    let parts = parts();
    show_parts(rt, &parts)?;
    let mut store = [state(0, 0); STORE];
    let mut drawn = accepted(parts.draw(&mut store), "drawing the plant")?;
    rt.println("Worked out:")?;
    let answers = show_answers(rt, &drawn, &store)?;
    pumps_at_once(rt, &parts)?;
    compare_drawings(rt, &answers, &second_drawing(rt, &parts)?)?;
    overhaul(rt, &mut drawn, &mut store)?;
    refused_calls(rt, &mut drawn, &store)
}

fn show_parts(rt: &HostRuntime, parts: &Plant<Flow>) -> anyhow::Result<()> {
    rt.println("Two pumps in parallel, then a pipe in series; each state as flow:parts.")?;
    rt.println(Line::new("pump A    ", &parts.pump_a))?;
    rt.println(Line::new("pump B    ", &parts.pump_b))?;
    rt.println(Line::new("pipe      ", &parts.pipe))?;
    Ok(())
}

// Prints what the pumps and the plant answer, and answers what the plant does.
fn show_answers(
    rt: &HostRuntime,
    drawn: &Drawn<Flow>,
    store: &[State],
) -> anyhow::Result<RowAndNeeds>
    ensures { IfOk result (PlantAnswers drawn.now store.now) }
{
    let (diagram, nodes) = (&drawn.diagram, drawn.nodes);
    let pumps = accepted(
        CopiedRow::of(diagram, store, nodes.pumps),
        "asking the pumps",
    )?;
    rt.println(Line::new("both pumps", pumps.terms()))?;
    let plant = accepted(
        RowAndNeeds::of(diagram, store, nodes.plant),
        "asking the plant",
    )?;
    rt.println(Line::new("the plant ", plant.row.terms()))?;
    rt.println(plant.three)?;
    rt.println(plant.four)?;
    rt.println(plant.five)?;
    Ok(plant)
}

// What of the pumps alone meets a need of 3, joined and asked in one call.
fn pumps_alone(parts: &Plant<Flow>) -> Result<(Parts, Parts), Refusal>
    ensures { PumpsAlone parts.now result }
{
    let mut store = [state(0, 0); STORE];
    let (a, b) = (&parts.pump_a, &parts.pump_b);
    availability_of_two(Way::Parallel, a, b, Flow::new(3), &mut store)
}

fn pumps_at_once(rt: &HostRuntime, parts: &Plant<Flow>) -> anyhow::Result<()> {
    let (met, all) = accepted(pumps_alone(parts), "asking the pumps at once")?;
    println!(rt; "the pumps alone meet a need of 3 in {met} of {all} parts")?;
    Ok(())
}

// The plant drawn the other way round, in a diagram and a store of its own; answers what it does.
fn second_drawing(rt: &HostRuntime, parts: &Plant<Flow>) -> anyhow::Result<RowAndNeeds>
    ensures { IfOk result (RedrawnAnswers parts.now) }
{
    let mut store = [state(0, 0); STORE];
    let drawn = accepted(parts.redraw(&mut store), "drawing it again")?;
    rt.println("Drawn the other way round, the pipe first and the pumps exchanged:")?;
    show_answers(rt, &drawn, &store)
}

fn compare_drawings(
    rt: &HostRuntime,
    first: &RowAndNeeds,
    second: &RowAndNeeds,
) -> anyhow::Result<()>
    ensures { IfOk result (λ _. second.now ≡ first.now) }
{
    ensure!(*second == *first, "the second drawing answers otherwise");
    rt.println("the answers are the same")?;
    Ok(())
}

// Pump A gets new states: the plant is stale until it is collected again.
fn overhaul(rt: &HostRuntime, drawn: &mut Drawn<Flow>, store: &mut [State]) -> anyhow::Result<()>
    ensures row { IfOk result (λ _. Overhauled drawn.old store.old drawn.new store.new) }
    ensures calls { IfOk result (λ _. OverhaulCalls drawn.old store.old drawn.new store.new) }
    ensures nodes { drawn.new.nodes ≡ drawn.old.nodes }
{
    // What holds of every run of calls: this diagram was made elsewhere.
    runs_are_right::<Flow, Parts>();
    let states = [state(0, 1), state(5, 9)];
    accepted(drawn.overhaul(store, &states), "restating pump A")?;
    rt.println("Pump A is overhauled:")?;
    rt.println(Line::new("pump A    ", &states))?;
    let why = refused(
        drawn.diagram.total(store, drawn.nodes.plant),
        "a stale plant",
    )?;
    println!(rt; "the plant before it is worked out again: {why}")?;
    let early = drawn.diagram.collect(store, drawn.nodes.plant);
    let why = refused(early, "working out over stale pumps")?;
    println!(rt; "the plant worked out before the pumps: {why}")?;
    accepted(drawn.collect(store), "working it out again")?;
    rt.println("Worked out again:")?;
    show_answers(rt, drawn, store)?;
    Ok(())
}

// Calls that are refused change nothing.
fn refused_calls(rt: &HostRuntime, drawn: &mut Drawn<Flow>, store: &[State]) -> anyhow::Result<()>
    ensures records { IfOk result (λ _. records drawn.new.diagram ≡ records drawn.old.diagram) }
    ensures nodes { drawn.new.nodes ≡ drawn.old.nodes }
{
    let (diagram, nodes) = (&mut drawn.diagram, drawn.nodes);
    rt.println("Refused:")?;
    let again = diagram.join(store, Way::Parallel, &[nodes.pump_a, nodes.plant]);
    let why = refused(again, "pump A in two places")?;
    println!(rt; "pump A joined once more: {why}")?;
    let why = refused(diagram.term(store, nodes.plant, 3), "a fourth term")?;
    println!(rt; "a fourth term of the plant: {why}")?;
    let why = refused(diagram.size(store, 5), "a sixth node")?;
    println!(rt; "a sixth node: {why}")?;
    Ok(())
}
