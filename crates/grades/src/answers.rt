//! What calls answer, and what nodes say.
ghost use Rattle.std.specs.Prelude.{◌≡◌, MatchResult, Ok, Err, Some, IfOk};
ghost use Rattle.diagram.specs.Refusals.{number_of};
ghost use Rattle.diagram.specs.Shown.{records};
ghost use Rattle.grades.specs.Lines.{share_text, Answering};

use crate::batches::Batches;
use crate::grade::Grade;
use crate::share::State;
use anyhow::{anyhow, bail};
use diagram::diagram::Diagram;
use diagram::refusal::Refusal;
use std::fmt;

/// What a call answers; a refusal becomes an error of the program.
pub fn accepted<T: Drop>(answer: Result<T, Refusal>) -> anyhow::Result<T>
    ensures { MatchResult result (λ x. answer ≡ Ok x) (λ _. (e : Refusal) × (answer ≡ Err e)) }
{
    answer.map_err(|refusal| anyhow!("refused by question {}", refusal.number()))
}

/// The number of the question that refused a call; that it was accepted becomes an error.
pub fn refused<T: Drop>(answer: Result<T, Refusal>) -> anyhow::Result<u8>
    ensures { MatchResult result
        (λ n. (e : Refusal) × (answer ≡ Err e) × (n ≡ number_of e))
        (λ _. (x : T) × (answer ≡ Ok x)) }
{
    match answer {
        Ok(_) => bail!("a call was accepted that has to be refused"),
        Err(refusal) => Ok(refusal.number()),
    }
}

// How much of a node is of a grade or better.
#[derive(Clone, Copy)]
struct Share {
    grade: Grade,
    met: Batches,
    all: Batches,
}

impl Share {
    ghost use Rattle.grades.specs.Lines.{ShareOrRefusal};

    // As node k of the diagram answers it.
    fn of(
        diagram: &Diagram<Grade, Batches>,
        store: &[State],
        k: usize,
        grade: Grade,
    ) -> Result<Share, Refusal>
        ensures { ShareOrRefusal (records diagram.now) store.now k grade result }
    {
        let (met, all) = diagram.availability(store, k, grade)?;
        Ok(Share { grade, met, all })
    }
}

impl fmt::Display for Share {
    ghost output = { λ s. Some (share_text s.grade s.met s.all) };

    fn fmt<W: fmt::Write>(&self, f: &mut fmt::Formatter<W>) -> fmt::Result {
        let grade = self.grade;
        let met = self.met;
        let all = self.all;
        write!(f, "grade {grade} or better: {met} of {all} batches")
    }
}

// Prints the row of node k, and how much of it is of this grade or better.
pub(crate) fn show(
    rt: &HostRuntime,
    diagram: &Diagram<Grade, Batches>,
    store: &[State],
    k: usize,
    grade: Grade,
) -> anyhow::Result<()>
    ensures { IfOk result (λ _. Answering (records diagram.now) store.now k) }
{
    let size = accepted(diagram.size(store, k))?;
    for i in 0..size {
        let state = accepted(diagram.term(store, k, i))?;
        println!(rt; "  grade {}: {} batches", state.performance, state.weight)?;
    }
    let share = accepted(Share::of(diagram, store, k, grade))?;
    println!(rt; "  {share}")?;
    Ok(())
}
