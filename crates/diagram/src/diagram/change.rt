//! The calls that change a diagram's records: adding, joining, restating.
ghost use Rattle.std.specs.Prelude.{◌≢◌, ◌↔◌, IsTrue};
ghost use Rattle.diagram.specs.declared.node.Form.TheVariants.{Part, Joined, Bridge};
ghost use Rattle.diagram.specs.Shown.{records};
ghost use Rattle.diagram.specs.Calls.{Added, Joins, Restated};
ghost use Rattle.diagram.specs.Makings.{MadeAs};
ghost use Rattle.diagram.specs.Nodes.{EnoughStates};

use super::Diagram;
use crate::limits::{ARMS, NODES, STORE, TERMS};
use crate::making::Making;
use crate::node::Form;
use crate::refusal::Refusal;
use crate::table::are_distinct;
use crate::work::put_row;
use kinds::performance::Performance;
use kinds::weight::Weight;
use terms::term::{Term, Way};

impl<P: Performance, W: Weight> Diagram<P, W> {
    /// Adds a part from states in any order, and answers its number.
    ///
    /// Refused, in this order: 1 `ShortStore`, 2 `NoNumberLeft`, 3 `WrongStates`; then nothing has
    /// changed. Else the part's row stands in its places, and it is up to date.
    pub fn add(&mut self, store: &mut [Term<P, W>], states: &[Term<P, W>]) -> Result<usize, Refusal>
        ensures { Added P.Performance W.Weight (records self.old) store.old states.now
            result (records self.new) store.new }
    {
        Refusal::ShortStore.unless(store.len() >= STORE)?;
        Refusal::NoNumberLeft.unless(self.table.count < NODES)?;
        Refusal::WrongStates.unless(may_be_states(states.len()))?;
        let k = self.table.count;
        let size = put_row(store, k, states);
        self.table.add_part(size);
        Ok(k)
    }

    /// Joins nodes in series or in parallel, in this order, and answers the number of the new node.
    ///
    /// Refused, in this order: 1 `ShortStore`, 2 `NoNumberLeft`, 4 `WrongChildren`, 5 `NoNode`,
    /// 6 `InUse`, 7 `Repeated`; then nothing has changed. Else the new node is stale.
    pub fn join(
        &mut self,
        store: &[Term<P, W>],
        way: Way,
        children: &[usize],
    ) -> Result<usize, Refusal>
        ensures { Joins P.Performance W.Weight (records self.old) store.now
            (Joined way) children.now result (records self.new) }
    {
        self.join_as(store, Form::Joined(way), children)
    }

    /// Joins the arms a to e of a bridge, and answers the number of the new node.
    ///
    /// Refused as in `join`, but never by 4 `WrongChildren`.
    pub fn join_bridge(
        &mut self,
        store: &[Term<P, W>],
        arms: [usize; ARMS],
    ) -> Result<usize, Refusal>
        ensures { Joins P.Performance W.Weight (records self.old) store.now Bridge arms
            result (records self.new) }
    {
        self.join_as(store, Form::Bridge, &arms)
    }

    /// Makes a node as it is said, and answers its number.
    ///
    /// Refused as in `add`, `join` or `join_bridge`.
    pub fn make(&mut self, store: &mut [Term<P, W>], making: Making<P, W>) -> Result<usize, Refusal>
        ensures { MadeAs P.Performance W.Weight making.entry self.old store.old
            result self.new store.new }
    {
        match making {
            Making::Added(states) => self.add(store, states),
            Making::Joined(way, children) => self.join(store, way, children),
            Making::Bridged(arms) => {
                let [a, b, c, d, e] = arms;
                self.join_bridge(store, [a, b, c, d, e])
            }
        }
    }

    // Joins nodes, in whatever form.
    fn join_as(
        &mut self,
        store: &[Term<P, W>],
        form: Form,
        children: &[usize],
    ) -> Result<usize, Refusal>
        requires { form ≢ Part }
        ensures { Joins P.Performance W.Weight (records self.old) store.now form children.now
            result (records self.new) }
    {
        Refusal::ShortStore.unless(store.len() >= STORE)?;
        Refusal::NoNumberLeft.unless(self.table.count < NODES)?;
        Refusal::WrongChildren.unless(form.takes(children.len()))?;
        Refusal::NoNode.unless(self.table.are_nodes(children))?;
        Refusal::InUse.unless(self.table.are_free(children))?;
        Refusal::Repeated.unless(are_distinct(children))?;
        let k = self.table.count;
        self.table.join(form, children);
        Ok(k)
    }

    /// Gives part k new states, and answers how many terms its row has.
    ///
    /// Refused, in this order: 1 `ShortStore`, 5 `NoNode`, 8 `NotPart`, 3 `WrongStates`; then
    /// nothing has changed. Else all that the part is beneath is stale.
    pub fn restate(
        &mut self,
        store: &mut [Term<P, W>],
        k: usize,
        states: &[Term<P, W>],
    ) -> Result<usize, Refusal>
        ensures { Restated P.Performance W.Weight (records self.old) store.old k states.now
            result (records self.new) store.new }
    {
        Refusal::ShortStore.unless(store.len() >= STORE)?;
        Refusal::NoNode.unless(k < self.table.count)?;
        Refusal::NotPart.unless(self.table.nodes[k].form.is_part())?;
        Refusal::WrongStates.unless(may_be_states(states.len()))?;
        let size = put_row(store, k, states);
        self.table.restate(k, size);
        Ok(size)
    }
}

// May a part have so many states?
fn may_be_states(n: usize) -> bool
    ensures { IsTrue result ↔ EnoughStates n }
{
    (1..=TERMS).contains(&n)
}
