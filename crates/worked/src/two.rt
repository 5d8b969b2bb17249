//! Two joined parts, asked of a diagram: what follows for its caller from the promise over all
//! runs.
ghost use Rattle.std.specs.Prelude.{Ok, length};
ghost use Rattle.diagram.specs.Shown.{records};
ghost use Rattle.diagram.specs.Calls.{Made};
ghost use Rattle.diagram.specs.Runs.{AnswersRight};
ghost use Rattle.worked.specs.TwoParts.{OfTwo, LeftOfTwo};

use diagram::diagram::Diagram;
use diagram::refusal::Refusal;
use kinds::performance::Performance;
use kinds::weight::Weight;
use terms::term::{Term, Way};

/// What of two joined parts meets a demand, and the weight of everything.
///
/// A store of fewer than `STORE` terms, a part without 1 to `TERMS` states and a row of more than
/// `TERMS` terms are refused, the first of these before the next.
pub fn availability_of_two<P: Performance, W: Weight>(
    way: Way,
    first: &[Term<P, W>],
    second: &[Term<P, W>],
    demand: P,
    store: &mut [Term<P, W>],
) -> Result<(W, W), Refusal>
    ensures answer { OfTwo P.Performance W.Weight way first.now second.now
        demand (length store.old) result }
    ensures left { LeftOfTwo P.Performance W.Weight way first.now second.now store.old store.new }
{
    let mut plant = Diagram::new(store)?;
    ask_two(&mut plant, way, first, second, demand, store)
}

// The same, of a diagram that was made over this store.
fn ask_two<P: Performance, W: Weight>(
    plant: &mut Diagram<P, W>,
    way: Way,
    first: &[Term<P, W>],
    second: &[Term<P, W>],
    demand: P,
    store: &mut [Term<P, W>],
) -> Result<(W, W), Refusal>
    requires new { Made records store.old (Ok plant.old) }
    requires right { AnswersRight P.Performance W.Weight }
    ensures answer { OfTwo P.Performance W.Weight way first.now second.now
        demand (length store.old) result }
    ensures left { LeftOfTwo P.Performance W.Weight way first.now second.now store.old store.new }
{
    let a = plant.add(store, first)?;
    let b = plant.add(store, second)?;
    let both = plant.join(store, way, &[a, b])?;
    plant.collect(store, both)?;
    plant.availability(store, both, demand)
}
