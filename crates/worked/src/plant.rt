//! A plant of two pumps and a pipe, drawn in a diagram.
ghost use Rattle.std.specs.Prelude.{◌≡◌};
ghost use Rattle.kinds.specs.Holding.{Holds};
ghost use Rattle.kinds.specs.Words.{number};

use diagram::diagram::Diagram;
use diagram::refusal::Refusal;
use kinds::performance::Performance;
use kinds::values::{Flow, Parts};
use terms::term::{Term, Way};

/// The states of two pumps and a pipe.
#[derive(Drop)]
pub struct Plant<P> {
    /// The states of pump A.
    pub pump_a: [Term<P, Parts>; 2],
    /// The states of pump B.
    pub pump_b: [Term<P, Parts>; 2],
    /// The states of the pipe.
    pub pipe: [Term<P, Parts>; 2],
}

/// The numbers of the plant's nodes: its parts, both pumps, and the whole.
#[derive(Clone, Copy)]
pub struct Nodes {
    /// Pump A.
    pub pump_a: usize,
    /// Pump B.
    pub pump_b: usize,
    /// The pipe.
    pub pipe: usize,
    /// Both pumps in parallel.
    pub pumps: usize,
    /// The whole plant.
    pub plant: usize,
}

/// The plant in a diagram.
#[derive(Drop)]
pub struct Drawn<P> {
    /// What the calls have made.
    pub diagram: Diagram<P, Parts>,
    /// Which node is which.
    pub nodes: Nodes,
}

/// A performance that `count` parts of the whole have.
pub fn weighed<P: Copy>(performance: P, count: u32) -> Term<P, Parts>
    ensures performance { result.performance ≡ performance }
    ensures weight { Holds number count result.weight }
{
    Term {
        performance,
        weight: Parts::new(count),
    }
}

/// `count` parts of the whole pass `rate`.
pub fn state(rate: u32, count: u32) -> Term<Flow, Parts>
    ensures performance { Holds number rate result.performance }
    ensures weight { Holds number count result.weight }
{
    weighed(Flow::new(rate), count)
}

impl<P: Performance> Plant<P> {
    ghost use Rattle.std.specs.Prelude.{IfOk};
    ghost use Rattle.worked.specs.Plants.{DrawnOf, PlantRow, LeftByDrawing, in_order};
    ghost use Rattle.worked.specs.Plants.{plant_drawn, plant_redrawn, each_drawn, each_redrawn};

    /// Draws the plant and works it out: the pumps in parallel, then the pipe in series.
    /// A store of fewer than `STORE` terms is refused.
    pub fn draw(&self, store: &mut [Term<P, Parts>]) -> Result<Drawn<P>, Refusal>
        ensures calls { IfOk result (λ d. DrawnOf P.Performance self.now plant_drawn d store.new) }
        ensures nodes { IfOk result (λ d. d.nodes ≡ in_order) }
        ensures row { IfOk result (PlantRow P.Performance self.now plant_drawn store.new) }
        ensures left { LeftByDrawing P.Performance self.now each_drawn store.old store.new }
    {
        let mut diagram = Diagram::new(store)?;
        let pump_a = diagram.add(store, &self.pump_a)?;
        let pump_b = diagram.add(store, &self.pump_b)?;
        let pipe = diagram.add(store, &self.pipe)?;
        let pumps = diagram.join(store, Way::Parallel, &[pump_a, pump_b])?;
        let plant = diagram.join(store, Way::Series, &[pumps, pipe])?;
        diagram.collect(store, pumps)?;
        diagram.collect(store, plant)?;
        let nodes = Nodes {
            pump_a,
            pump_b,
            pipe,
            pumps,
            plant,
        };
        Ok(Drawn { diagram, nodes })
    }

    /// Draws the plant the other way round and works it out: the pipe, then the pumps, exchanged.
    /// A store of fewer than `STORE` terms is refused.
    pub fn redraw(&self, store: &mut [Term<P, Parts>]) -> Result<Drawn<P>, Refusal>
        ensures calls { IfOk result (λ d.
            DrawnOf P.Performance self.now plant_redrawn d store.new) }
        ensures nodes { IfOk result (λ d. d.nodes ≡ in_order) }
        ensures row { IfOk result (PlantRow P.Performance self.now plant_redrawn store.new) }
        ensures left { LeftByDrawing P.Performance self.now each_redrawn store.old store.new }
    {
        let mut diagram = Diagram::new(store)?;
        let pump_a = diagram.add(store, &self.pump_a)?;
        let pump_b = diagram.add(store, &self.pump_b)?;
        let pipe = diagram.add(store, &self.pipe)?;
        let pumps = diagram.join(store, Way::Parallel, &[pump_b, pump_a])?;
        let plant = diagram.join(store, Way::Series, &[pipe, pumps])?;
        diagram.collect(store, pumps)?;
        diagram.collect(store, plant)?;
        let nodes = Nodes {
            pump_a,
            pump_b,
            pipe,
            pumps,
            plant,
        };
        // Nothing is restated after this, so each node answers.
        Ok(Drawn { diagram, nodes })
    }
}

impl<P: Performance> Drawn<P> {
    ghost use Rattle.std.specs.Prelude.{IfOk, IfErr};
    ghost use Rattle.worked.specs.Plants.{PumpRestated, PlantCollected, PlantRefused};

    /// Gives pump A new states, which leaves the pumps and the plant stale.
    pub fn overhaul(
        &mut self,
        store: &mut [Term<P, Parts>],
        states: &[Term<P, Parts>],
    ) -> Result<usize, Refusal>
        ensures restated { PumpRestated P.Performance
            self.old store.old self.new store.new states.now result }
        ensures nodes { self.new.nodes ≡ self.old.nodes }
    {
        self.diagram.restate(store, self.nodes.pump_a, states)
    }

    /// Works out the pumps, then the plant. The first refusal ends it.
    pub fn collect(&mut self, store: &mut [Term<P, Parts>]) -> Result<(), Refusal>
        ensures collected { IfOk result (λ _. PlantCollected P.Performance
            self.old store.old self.new store.new) }
        ensures refused { IfErr result (PlantRefused P.Performance
            self.old store.old self.new store.new) }
        ensures nodes { self.new.nodes ≡ self.old.nodes }
    {
        self.diagram.collect(store, self.nodes.pumps)?;
        self.diagram.collect(store, self.nodes.plant)?;
        Ok(())
    }
}
