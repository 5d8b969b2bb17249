//! The questions: size, term, total and availability of a node.
ghost use Rattle.std.specs.Prelude.{◌≡◌, Ok};
ghost use Rattle.diagram.specs.Shown.{records};
ghost use Rattle.diagram.specs.Calls.{Asks, TellsSize, TellsTerm, TellsTotal, TellsAvailability};

use super::Diagram;
use crate::limits::STORE;
use crate::refusal::Refusal;
use crate::work::row_of;
use kinds::performance::Performance;
use kinds::weight::Weight;
use terms::sums::{availability, total};
use terms::term::Term;

impl<P: Performance, W: Weight> Diagram<P, W> {
    /// How many terms the row of node k has.
    ///
    /// Refused, as each question, in this order: 1 `ShortStore`, 5 `NoNode`, 13 `Stale`.
    pub fn size(&self, store: &[Term<P, W>], k: usize) -> Result<usize, Refusal>
        ensures { TellsSize P.Performance W.Weight (records self.now) store.now k result }
    {
        self.answers(store, k)?;
        Ok(self.table.nodes[k].size)
    }

    /// Term i of the row of node k, counted from 0; the terms stand in rising order.
    ///
    /// Refused, in this order: 1 `ShortStore`, 5 `NoNode`, 13 `Stale`, 14 `NoTerm`.
    pub fn term(&self, store: &[Term<P, W>], k: usize, i: usize) -> Result<Term<P, W>, Refusal>
        ensures { TellsTerm P.Performance W.Weight (records self.now) store.now k i result }
    {
        self.answers(store, k)?;
        let row = row_of(&self.table, store, k);
        Refusal::NoTerm.unless(i < row.len())?;
        Ok(row[i])
    }

    /// The weight of everything.
    ///
    /// Refused, in this order: 1 `ShortStore`, 5 `NoNode`, 13 `Stale`.
    pub fn total(&self, store: &[Term<P, W>], k: usize) -> Result<W, Refusal>
        ensures { TellsTotal P.Performance W.Weight (records self.now) store.now k result }
    {
        self.answers(store, k)?;
        Ok(total(row_of(&self.table, store, k)))
    }

    /// The weight of what meets the demand, and the weight of everything.
    ///
    /// Refused, in this order: 1 `ShortStore`, 5 `NoNode`, 13 `Stale`.
    pub fn availability(&self, store: &[Term<P, W>], k: usize, demand: P) -> Result<(W, W), Refusal>
        ensures { TellsAvailability P.Performance W.Weight (records self.now) store.now k demand
            result }
    {
        self.answers(store, k)?;
        Ok(availability(row_of(&self.table, store, k), demand))
    }

    // Does node k answer?
    fn answers(&self, store: &[Term<P, W>], k: usize) -> Result<(), Refusal>
        ensures { Asks P.Performance W.Weight (records self.now) store.now k
            result (result ≡ Ok tt) }
    {
        Refusal::ShortStore.unless(store.len() >= STORE)?;
        Refusal::NoNode.unless(k < self.table.count)?;
        Refusal::Stale.unless(self.table.is_up_to_date(k))
    }
}
