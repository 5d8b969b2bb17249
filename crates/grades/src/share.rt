//! What of a plant's products is at least of a grade: what follows for its caller from the promise
//! over all runs.
ghost use Rattle.std.specs.Prelude.{◌≡◌, ◌≤◌, Ok, length};
ghost use Rattle.diagram.specs.Calls.{Made};
ghost use Rattle.diagram.specs.Runs.{AnswersRight};
ghost use Rattle.diagram.specs.Shown.{records};
ghost use Rattle.grades.specs.Shares.{ShareOf, LeftByParts, LeftOfShare};
ghost use Rattle.grades.specs.Building.{in_order, PartsAdded};
ghost use Rattle.grades.specs.Building.{JoinsParts, WorksOut, LeavesRows};

use crate::batches::Batches;
use crate::grade::Grade;
use diagram::diagram::Diagram;
use diagram::limits::STORE;
use diagram::refusal::Refusal;
use kinds::performance::Performance;
use kinds::weight::Weight;
use terms::drawings::combinations_go_child_by_child;
use terms::term::{Term, Way};
use terms::theorems::summing_keeps_distributions;

/// So many batches of a grade.
pub type State = Term<Grade, Batches>;

// The numbers of a plant's parts.
#[derive(Clone, Copy)]
pub(crate) struct Nodes {
    pub(crate) first: usize,
    pub(crate) second: usize,
    pub(crate) finishing: usize,
}

// The numbers of what is joined from them: both lines, and the whole.
#[derive(Clone, Copy)]
pub(crate) struct Joined {
    pub(crate) lines: usize,
    pub(crate) whole: usize,
}

/// Of two lines in parallel and then a finishing step: how many batches are of this grade or
/// better, and how many there are.
///
/// A store of fewer than `STORE` terms is refused, and then the first part without 1 to `TERMS`
/// states.
pub fn share_of_grade(
    first: &[State],
    second: &[State],
    finishing: &[State],
    grade: Grade,
    store: &mut [State],
) -> Result<(Batches, Batches), Refusal>
    ensures answer { ShareOf first.now second.now finishing.now grade (length store.old) result }
    ensures left { LeftOfShare first.now second.now finishing.now store.old store.new }
{
    combinations_go_child_by_child::<Grade, Batches>();
    summing_keeps_distributions::<Grade, Batches>();
    let mut plant = Diagram::new(store)?;
    let parts = add_parts(&mut plant, first, second, finishing, store)?;
    let whole = work_out(&mut plant, parts, store)?;
    plant.availability(store, whole, grade)
}

// The two lines and the finishing step, added to a new diagram.
pub(crate) fn add_parts(
    plant: &mut Diagram<Grade, Batches>,
    first: &[State],
    second: &[State],
    finishing: &[State],
    store: &mut [State],
) -> Result<Nodes, Refusal>
    requires new { Made records store.old (Ok plant.old) }
    requires right { AnswersRight ⟦<Grade as Performance>⟧ ⟦<Batches as Weight>⟧ }
    ensures added { PartsAdded first.now second.now finishing.now
        (length store.old) plant.new store.new result }
    ensures left { LeftByParts first.now second.now finishing.now 3 store.old store.new }
{
    Ok(Nodes {
        first: plant.add(store, first)?,
        second: plant.add(store, second)?,
        finishing: plant.add(store, finishing)?,
    })
}

// The lines joined in parallel, then the finishing step in series.
pub(crate) fn join_parts(
    plant: &mut Diagram<Grade, Batches>,
    parts: Nodes,
    store: &[State],
) -> Result<Joined, Refusal>
    requires roomy { STORE ≤ length store.now }
    requires right { AnswersRight ⟦<Grade as Performance>⟧ ⟦<Batches as Weight>⟧ }
    requires parts { parts ≡ in_order }
    ensures { JoinsParts plant.old store.now plant.new result }
{
    let lines = plant.join(store, Way::Parallel, &[parts.first, parts.second])?;
    let whole = plant.join(store, Way::Series, &[lines, parts.finishing])?;
    Ok(Joined { lines, whole })
}

// The parts joined and worked out; answers the number of the whole.
fn work_out(
    plant: &mut Diagram<Grade, Batches>,
    parts: Nodes,
    store: &mut [State],
) -> Result<usize, Refusal>
    requires roomy { STORE ≤ length store.old }
    requires right { AnswersRight ⟦<Grade as Performance>⟧ ⟦<Batches as Weight>⟧ }
    requires parts { parts ≡ in_order }
    ensures worked { WorksOut plant.old store.old plant.new store.new result }
    ensures left { LeavesRows plant.old store.old plant.new store.new }
{
    let joined = join_parts(plant, parts, store)?;
    plant.collect(store, joined.lines)?;
    plant.collect(store, joined.whole)?;
    Ok(joined.whole)
}
