//! A plant drawn by calls: two lines in parallel, and then a finishing step.
ghost use Rattle.std.specs.Prelude.{◌≡◌, length, IfOk, IfErr};
ghost use Rattle.grades.specs.Plants.{GivenStates, Stands, LeftByDrawing};
ghost use Rattle.grades.specs.Plants.{WholeCollected, WholeRefused, Retooled};

use crate::answers::{accepted, refused, show};
use crate::batches::Batches;
use crate::grade::Grade;
use crate::numbered::{grade_numbered, state};
use crate::share::{State, add_parts, join_parts, share_of_grade};
use diagram::diagram::Diagram;
use diagram::limits::STORE;
use diagram::refusal::Refusal;

// The states of the parts, and the grade that is asked for.
#[derive(Clone, Copy)]
struct States {
    first: [State; 2],
    second: [State; 2],
    finishing: [State; 2],
    asked: Grade,
}

fn given() -> anyhow::Result<States>
    ensures { IfOk result GivenStates }
{
    Ok(States {
        first: [state(3, 2)?, state(7, 8)?],
        second: [state(5, 6)?, state(8, 4)?],
        finishing: [state(4, 1)?, state(9, 9)?],
        asked: grade_numbered(7)?,
    })
}

// The plant in a diagram, and the numbers of its first line, of both lines, and of the whole.
#[derive(Drop)]
struct Plant {
    diagram: Diagram<Grade, Batches>,
    first: usize,
    lines: usize,
    whole: usize,
}

impl Plant {
    fn draw(parts: &States, store: &mut [State]) -> Result<Plant, Refusal>
        ensures stands { IfOk result (Stands parts.now (length store.old) store.new) }
        ensures left { LeftByDrawing parts.now store.old store.new }
    {
        let mut diagram = Diagram::new(store)?;
        let nodes = add_parts(
            &mut diagram,
            &parts.first,
            &parts.second,
            &parts.finishing,
            store,
        )?;
        let joined = join_parts(&mut diagram, nodes, store)?;
        Ok(Plant {
            diagram,
            first: nodes.first,
            lines: joined.lines,
            whole: joined.whole,
        })
    }

    // Works out the lines, and then the whole.
    fn collect(&mut self, store: &mut [State]) -> Result<(), Refusal>
        ensures collected { IfOk result (λ _.
            WholeCollected self.old store.old self.new store.new) }
        ensures refused { IfErr result (WholeRefused self.old store.old self.new store.new) }
        ensures first { self.new.first ≡ self.old.first }
        ensures lines { self.new.lines ≡ self.old.lines }
        ensures whole { self.new.whole ≡ self.old.whole }
    {
        self.diagram.collect(store, self.lines)?;
        self.diagram.collect(store, self.whole)?;
        Ok(())
    }
}

pub(crate) fn by_calls(rt: &HostRuntime) -> anyhow::Result<()> {
    let parts = given()?;
    let mut store = [state(0, 0)?; STORE];
    let mut plant = accepted(Plant::draw(&parts, &mut store))?;
    accepted(plant.collect(&mut store))?;
    rt.println("Two lines in parallel make:")?;
    show(rt, &plant.diagram, &store, plant.lines, parts.asked)?;
    rt.println("After the finishing step:")?;
    show(rt, &plant.diagram, &store, plant.whole, parts.asked)?;
    at_once(rt, &parts)?;
    new_tools(rt, &mut plant, &mut store, parts.asked)
}

// The same in one call.
fn at_once(rt: &HostRuntime, parts: &States) -> anyhow::Result<()> {
    let mut store = [state(0, 0)?; STORE];
    let (first, second, finishing) = (&parts.first, &parts.second, &parts.finishing);
    let share = share_of_grade(first, second, finishing, parts.asked, &mut store);
    let (met, all) = accepted(share)?;
    println!(rt; "In one call: {met} of {all} batches")?;
    Ok(())
}

// The first line gets new tools: what is above it is stale until it is collected again.
fn new_tools(
    rt: &HostRuntime,
    plant: &mut Plant,
    store: &mut [State],
    asked: Grade,
) -> anyhow::Result<()>
    ensures calls { IfOk result (λ _. Retooled plant.old store.old plant.new store.new) }
    ensures first { plant.new.first ≡ plant.old.first }
    ensures lines { plant.new.lines ≡ plant.old.lines }
    ensures whole { plant.new.whole ≡ plant.old.whole }
{
    let states = [state(6, 1)?, state(9, 9)?];
    accepted(plant.diagram.restate(store, plant.first, &states))?;
    rt.println("The first line gets new tools.")?;
    let stale = refused(plant.diagram.total(store, plant.whole))?;
    println!(rt; "Asking the plant is refused by question {stale}")?;
    let early = refused(plant.diagram.collect(store, plant.whole))?;
    println!(rt; "Working it out before the lines is refused by question {early}")?;
    accepted(plant.collect(store))?;
    rt.println("Worked out again:")?;
    show(rt, &plant.diagram, store, plant.whole, asked)
}
