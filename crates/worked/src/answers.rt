//! What a node of a diagram answers.
ghost use Rattle.std.specs.Prelude.{◌≡◌, ◌≤◌, take, IfOk};
ghost use Rattle.diagram.specs.declared.limits.TheConstants.{TERMS};
ghost use Rattle.diagram.specs.Shown.{records};

use crate::lines::Need;
use crate::plant::state;
use diagram::diagram::Diagram;
use diagram::limits::TERMS;
use diagram::refusal::Refusal;
use kinds::values::{Flow, Parts};
use terms::term::Term;

/// A row copied out of a diagram.
#[derive(Clone, Copy, PartialEq, Eq)]
pub struct CopiedRow {
    terms: [Term<Flow, Parts>; TERMS],
    len: usize,
    ghost fits: { len ≤ TERMS },
}

impl CopiedRow {
    ghost use Rattle.worked.specs.Answering.{HoldsRow, RowOrRefusal};

    /// The row of node k, asked term by term. It is refused as a question about the node is.
    pub fn of(
        diagram: &Diagram<Flow, Parts>,
        store: &[Term<Flow, Parts>],
        k: usize,
    ) -> Result<CopiedRow, Refusal>
        ensures row { IfOk result (HoldsRow (records diagram.now) store.now k) }
        ensures refusals { RowOrRefusal (records diagram.now) store.now k result }
    {
        let len = diagram.size(store, k)?;
        let mut terms = [state(0, 0); TERMS];
        for i in 0..len {
            terms[i] = diagram.term(store, k, i)?;
        }
        Ok(CopiedRow { terms, len })
    }

    /// The terms, in their order.
    pub fn terms(&self) -> &[Term<Flow, Parts>]
        ensures { result.now ≡ take self.now.len self.now.terms }
    {
        &self.terms[..self.len]
    }
}

/// The row of a node, and what of it meets a need of 3, of 4 and of 5.
#[derive(Clone, Copy, PartialEq, Eq)]
pub struct RowAndNeeds {
    /// The row of the node.
    pub row: CopiedRow,
    /// What meets a need of 3.
    pub three: Need,
    /// What meets a need of 4.
    pub four: Need,
    /// What meets a need of 5.
    pub five: Need,
}

impl RowAndNeeds {
    ghost use Rattle.worked.specs.Answering.{AreAnswers, AnswersOrRefusal};

    /// What node k answers. It is refused as a question about the node is.
    pub fn of(
        diagram: &Diagram<Flow, Parts>,
        store: &[Term<Flow, Parts>],
        k: usize,
    ) -> Result<RowAndNeeds, Refusal>
        ensures answers { IfOk result (AreAnswers (records diagram.now) store.now k) }
        ensures refusals { AnswersOrRefusal (records diagram.now) store.now k result }
    {
        Ok(RowAndNeeds {
            row: CopiedRow::of(diagram, store, k)?,
            three: Need::of(Flow::new(3), diagram, store, k)?,
            four: Need::of(Flow::new(4), diagram, store, k)?,
            five: Need::of(Flow::new(5), diagram, store, k)?,
        })
    }
}
