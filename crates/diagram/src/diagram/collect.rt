//! Collecting: the row of a joined node from the rows of its children.
ghost use Rattle.diagram.specs.Shown.{records};
ghost use Rattle.diagram.specs.Calls.{Collected};
ghost use Rattle.diagram.specs.InTurn.{CollectsInTurn, CollectsAll};

use super::Diagram;
use crate::limits::STORE;
use crate::refusal::{Refusal, RefusedAt};
use crate::work::work_out;
use kinds::performance::Performance;
use kinds::weight::Weight;
use terms::term::Term;

impl<P: Performance, W: Weight> Diagram<P, W> {
    /// Works out the row of joined node k, and answers how many terms it has.
    ///
    /// Refused, in this order: 1 `ShortStore`, 5 `NoNode`, 9 `NotJoined`, 10 `StaleChild`,
    /// 11 `LongArm`, 12 `LongResult`; then nothing has changed, after 12 but for the working rows.
    /// Else the row stands in the node's places, and the node is up to date.
    pub fn collect(&mut self, store: &mut [Term<P, W>], k: usize) -> Result<usize, Refusal>
        ensures { Collected P.Performance W.Weight (records self.old) store.old k
            result (records self.new) store.new }
    {
        Refusal::ShortStore.unless(store.len() >= STORE)?;
        Refusal::NoNode.unless(k < self.table.count)?;
        Refusal::NotJoined.unless(self.table.nodes[k].form.is_joined())?;
        Refusal::StaleChild.unless(self.table.children_are_up_to_date(k))?;
        Refusal::LongArm.unless(self.table.arms_fit(k))?;
        let size = work_out(&self.table, store, k).ok_or(Refusal::LongResult)?;
        self.table.collect(k, size);
        Ok(size)
    }

    /// Works out the row of every joined node, by rising number, as `collect` does each.
    ///
    /// All nodes are then up to date. Refused: 1 `ShortStore`, told with node 0, before any node is
    /// looked at; then the first refusal of a node, told with its number, ends it.
    pub fn collect_all(&mut self, store: &mut [Term<P, W>]) -> Result<(), RefusedAt>
        ensures in_turn { CollectsInTurn P.Performance W.Weight self.old store.old
            result self.new store.new }
        ensures in_runs { CollectsAll P.Performance W.Weight self.old store.old
            result self.new store.new }
    {
        if store.len() < STORE {
            return Err(RefusedAt {
                node: 0,
                refusal: Refusal::ShortStore,
            });
        }
        for k in 0..self.table.count {
            if self.table.nodes[k].form.is_joined() {
                self.collect(store, k)
                    .map_err(|refusal| RefusedAt { node: k, refusal })?;
            }
        }
        Ok(())
    }
}
