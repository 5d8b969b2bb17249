//! Making a diagram.
ghost use Rattle.diagram.specs.Calls.{Made};
ghost use Rattle.diagram.specs.Shown.{records};
ghost use Rattle.diagram.specs.Runs.{AnswersRight, AnswersAlike};

use super::Diagram;
use crate::limits::STORE;
use crate::refusal::Refusal;
use crate::table::Table;
use kinds::performance::Performance;
use kinds::weight::Weight;
use std::marker::PhantomData;
use terms::term::Term;

impl<P: Performance, W: Weight> Diagram<P, W> {
    /// A diagram without nodes.
    ///
    /// Refused: 1 `ShortStore`. Two clauses are the promise over all runs of calls.
    pub fn new(store: &[Term<P, W>]) -> Result<Diagram<P, W>, Refusal>
        ensures made { Made records store.now result }
        ensures answers_right { AnswersRight P.Performance W.Weight }
        ensures answers_alike { AnswersAlike P.Performance W.Weight }
    {
        Refusal::ShortStore.unless(store.len() >= STORE)?;
        Ok(Diagram {
            table: Table::empty(),
            kinds: PhantomData,
        })
    }
}
