//! The record of one node.
ghost use Rattle.std.specs.Prelude.{◌≡◌, ◌≢◌, ◌↔◌, IsTrue};
ghost use Rattle.diagram.specs.declared.node.Form.TheVariants.{Part};
ghost use Rattle.diagram.specs.Nodes.{Takes, part_of, joined_by, status_after};

use crate::limits::{ARMS, CHILDREN, FEWEST_CHILDREN};
use terms::term::Way;

// How a node was made: added as a part, joined in series or in parallel, or joined as a bridge.
#[derive(Clone, Copy)]
pub(crate) enum Form {
    Part,
    Joined(Way),
    Bridge,
}

// Whether the row of a node is that of the states beneath it.
#[derive(Clone, Copy)]
pub(crate) enum Status {
    Stale,
    UpToDate,
}

// What moves the status of a joined node: a restating of a part beneath it, and a collecting of it.
#[derive(Clone, Copy)]
pub(crate) enum Event {
    Restated,
    Collected,
}

// The record of a node, but for its children. The user is the node that was joined from it; the
// size is how many terms its row has.
#[derive(Clone, Copy)]
pub(crate) struct Node {
    pub(crate) form: Form,
    pub(crate) status: Status,
    pub(crate) user: Option<usize>,
    pub(crate) size: usize,
}

impl Form {
    pub(crate) fn is_part(self) -> bool
        ensures { IsTrue result ↔ (self ≡ Part) }
    {
        matches!(self, Form::Part)
    }

    pub(crate) fn is_joined(self) -> bool
        ensures { IsTrue result ↔ (self ≢ Part) }
    {
        !matches!(self, Form::Part)
    }

    // Does it take so many children?
    pub(crate) fn takes(self, n: usize) -> bool
        ensures { IsTrue result ↔ Takes self n }
    {
        match self {
            Form::Part => n == 0,
            Form::Joined(_) => (FEWEST_CHILDREN..=CHILDREN).contains(&n),
            Form::Bridge => n == ARMS,
        }
    }
}

impl Node {
    // A part, which is always up to date.
    pub(crate) fn part(size: usize) -> Node
        ensures { result ≡ part_of size }
    {
        Node {
            form: Form::Part,
            status: Status::UpToDate,
            user: None,
            size,
        }
    }

    // A joined node as it is made: stale, and without a row.
    pub(crate) fn joined(form: Form) -> Node
        ensures { result ≡ joined_by form }
    {
        Node {
            form,
            status: Status::Stale,
            user: None,
            size: 0,
        }
    }

    // Moves the status.
    pub(crate) fn meet(&mut self, event: Event)
        ensures { self.new ≡ record self.old { status = status_after event } }
    {
        match (self.status, event) {
            (Status::UpToDate, Event::Restated) => self.status = Status::Stale,
            (Status::Stale, Event::Collected) => self.status = Status::UpToDate,
            (Status::Stale, Event::Restated) | (Status::UpToDate, Event::Collected) => {}
        }
    }
}
