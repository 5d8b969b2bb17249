//! The table of nodes.
ghost use Rattle.std.specs.Prelude.{◌≡◌, ◌<◌, ◌≤◌, ◌≢◌, All, AllPairs, ◌↔◌, IsTrue, length, take};
ghost use Rattle.diagram.specs.declared.node.Form.TheVariants.{Part};
ghost use Rattle.diagram.specs.declared.node.Status.TheVariants.{UpToDate};
ghost use Rattle.diagram.specs.Records.{Sound, node_at, form_at, status_at, size_at, children_at};
ghost use Rattle.diagram.specs.Changes.{PartAdded, NodeJoined, PartRestated, NodeCollected};
ghost use Rattle.diagram.specs.Nodes.{Takes};
ghost use Rattle.diagram.specs.Calls.{Free, ChildrenUpToDate, ArmsFit};
ghost use Rattle.diagram.specs.Writing.{UserSet, MarkedAbove, with_stale, with_collected};

use crate::limits::{ARM_TERMS, CHILDREN, NODES, TERMS};
use crate::node::{Event, Form, Node, Status};

// The records, one for each node that is made. Children stand beside the nodes: those of node k
// are the first `arities[k]` of its places.
#[derive(Drop)]
pub(crate) struct Table {
    pub(crate) nodes: [Node; NODES],
    pub(crate) children: [[usize; CHILDREN]; NODES],
    pub(crate) arities: [usize; NODES],
    pub(crate) count: usize,
}

impl Table {
    pub(crate) fn empty() -> Table
        ensures sound { Sound result }
        ensures none { result.count ≡ 0 }
    {
        Table {
            nodes: [Node::part(0); NODES],
            children: [[0; CHILDREN]; NODES],
            arities: [0; NODES],
            count: 0,
        }
    }

    pub(crate) fn children_of(&self, k: usize) -> &[usize]
        requires sound { Sound self.now }
        requires node { k < self.now.count }
        ensures { result.now ≡ children_at self.now k }
    {
        &self.children[k][..self.arities[k]]
    }

    pub(crate) fn are_nodes(&self, children: &[usize]) -> bool
        ensures { IsTrue result ↔ All (λ c. c < self.now.count) children.now }
    {
        children.iter().all(|c| *c < self.count)
    }

    // No joining named the node.
    pub(crate) fn is_free(&self, k: usize) -> bool
        requires { k < NODES }
        ensures { IsTrue result ↔ Free self.now k }
    {
        self.nodes[k].user.is_none()
    }

    pub(crate) fn is_up_to_date(&self, k: usize) -> bool
        requires { k < NODES }
        ensures { IsTrue result ↔ (status_at self.now k ≡ UpToDate) }
    {
        matches!(self.nodes[k].status, Status::UpToDate)
    }

    pub(crate) fn are_free(&self, children: &[usize]) -> bool
        requires sound { Sound self.now }
        requires nodes { All (λ c. c < self.now.count) children.now }
        ensures { IsTrue result ↔ All (Free self.now) children.now }
    {
        for c in children {
            if !self.is_free(*c) {
                return false;
            }
        }
        true
    }

    // Are the children of k up to date?
    pub(crate) fn children_are_up_to_date(&self, k: usize) -> bool
        requires sound { Sound self.now }
        requires node { k < self.now.count }
        ensures { IsTrue result ↔ ChildrenUpToDate self.now k }
    {
        for c in self.children_of(k) {
            if !self.is_up_to_date(*c) {
                return false;
            }
        }
        true
    }

    // Are the rows of the children of k short enough, if it is a bridge?
    pub(crate) fn arms_fit(&self, k: usize) -> bool
        requires sound { Sound self.now }
        requires node { k < self.now.count }
        ensures { IsTrue result ↔ ArmsFit self.now k }
    {
        match self.nodes[k].form {
            Form::Bridge => self.children_have_at_most(ARM_TERMS, k),
            Form::Part | Form::Joined(_) => true,
        }
    }

    // Have the rows of the children of k at most n terms?
    fn children_have_at_most(&self, n: usize, k: usize) -> bool
        requires sound { Sound self.now }
        requires node { k < self.now.count }
        ensures { IsTrue result ↔ All (λ c. size_at self.now c ≤ n) (children_at self.now k) }
    {
        for c in self.children_of(k) {
            if self.nodes[*c].size > n {
                return false;
            }
        }
        true
    }

    pub(crate) fn add_part(&mut self, size: usize)
        requires sound { Sound self.now }
        requires number_left { self.now.count < NODES }
        requires fits { size ≤ TERMS }
        ensures added { PartAdded self.old self.new size }
        ensures sound { Sound self.new }
    {
        let k = self.count;
        self.nodes[k] = Node::part(size);
        self.arities[k] = 0;
        self.count = k + 1;
    }

    pub(crate) fn join(&mut self, form: Form, children: &[usize])
        requires sound { Sound self.now }
        requires number_left { self.now.count < NODES }
        requires takes { Takes form (length children.now) × (form ≢ Part) }
        requires nodes { All (λ c. c < self.now.count) children.now }
        requires free { All (Free self.now) children.now }
        requires once { AllPairs ◌≢◌ children.now }
        ensures joined { NodeJoined self.old self.new form children.now }
        ensures sound { Sound self.new }
    {
        let k = self.count;
        self.set_user(children, k);
        self.nodes[k] = Node::joined(form);
        self.children[k] = padded(children);
        self.arities[k] = children.len();
        self.count = k + 1;
    }

    // Makes u the user of each of these nodes.
    fn set_user(&mut self, children: &[usize], u: usize)
        requires { All (λ c. c < NODES) children.now }
        ensures { UserSet self.old self.new children.now u }
    {
        for c in children {
            let node = &mut self.nodes[*c];
            node.user = Some(u);
        }
    }

    // A part has new states: its user is marked stale, then that node's user, and so on to the top.
    pub(crate) fn restate(&mut self, k: usize, size: usize)
        requires sound { Sound self.now }
        requires node { k < self.now.count }
        requires part { form_at self.now k ≡ Part }
        requires fits { size ≤ TERMS }
        ensures restated { PartRestated self.old self.new k size }
        ensures sound { Sound self.new }
    {
        self.mark_above(k);
        self.nodes[k].size = size;
    }

    fn mark_above(&mut self, k: usize)
        requires sound { Sound self.now }
        requires node { k < self.now.count }
        ensures { MarkedAbove self.old self.new k }
    {
        let mut next = self.nodes[k].user;
        while let Some(u) = next {
            next = self.mark(u);
        }
    }

    // Marks one node, and answers its user.
    fn mark(&mut self, k: usize) -> Option<usize>
        requires { k < NODES }
        ensures marked { self.new ≡ with_stale self.old k }
        ensures user { result ≡ (node_at self.old k).user }
    {
        let node = &mut self.nodes[k];
        node.meet(Event::Restated);
        node.user
    }

    // A node is worked out.
    pub(crate) fn collect(&mut self, k: usize, size: usize)
        requires sound { Sound self.now }
        requires node { k < self.now.count }
        requires joined { form_at self.now k ≢ Part }
        requires up_to_date { ChildrenUpToDate self.now k }
        requires fits { size ≤ TERMS }
        ensures collected { NodeCollected self.old self.new k size }
        ensures sound { Sound self.new }
    {
        self.put_collected(k, size);
    }

    // Changes one record to that of a collected node.
    fn put_collected(&mut self, k: usize, size: usize)
        requires { k < NODES }
        ensures { self.new ≡ with_collected self.old k size }
    {
        let node = &mut self.nodes[k];
        node.meet(Event::Collected);
        node.size = size;
    }
}

// The places of a node's children, of which these take the first.
fn padded(children: &[usize]) -> [usize; CHILDREN]
    requires { length children.now ≤ CHILDREN }
    ensures { take (length children.now) result ≡ children.now }
{
    let mut row = [0; CHILDREN];
    row[..children.len()].copy_from_slice(children);
    row
}

// Does no number stand earlier in the list?
pub(crate) fn are_distinct(children: &[usize]) -> bool
    ensures { IsTrue result ↔ AllPairs ◌≢◌ children.now }
{
    for i in 0..children.len() {
        if children[..i].contains(&children[i]) {
            return false;
        }
    }
    true
}
