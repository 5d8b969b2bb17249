//! Why a call is refused.
ghost use Rattle.std.specs.Prelude.{◌≡◌, OnOk, OnErr, IfErr, IsTrue, IsFalse};
ghost use Rattle.diagram.specs.Refusals.{number_of};

/// The question before a call that has the answer no, the first one where there are several.
///
/// With each stands its number.
#[derive(Clone, Copy, PartialEq, Eq, Debug)]
pub enum Refusal {
    /// 1: has the store at least `STORE` terms?
    ShortStore,
    /// 2: are there fewer than `NODES` nodes?
    NoNumberLeft,
    /// 3: are there one to `TERMS` states?
    WrongStates,
    /// 4: are there `FEWEST_CHILDREN` to `CHILDREN` children?
    WrongChildren,
    /// 5: is every number that of a node?
    NoNode,
    /// 6: is every child without a user?
    InUse,
    /// 7: is no child named twice?
    Repeated,
    /// 8: is the node a part?
    NotPart,
    /// 9: is the node joined?
    NotJoined,
    /// 10: are the node's children up to date?
    StaleChild,
    /// 11: has each arm, if the node is a bridge, at most `ARM_TERMS` terms?
    LongArm,
    /// 12: has each running result at most `TERMS` terms?
    LongResult,
    /// 13: is the node up to date?
    Stale,
    /// 14: has the node's row such a term?
    NoTerm,
}

/// Where collecting one node after the other was refused: the node's number, and why.
#[derive(Clone, Copy, PartialEq, Eq, Debug)]
pub struct RefusedAt {
    /// The node's number.
    pub node: usize,
    /// Why its collecting was refused.
    pub refusal: Refusal,
}

impl Refusal {
    /// The number by which a host knows the refusal.
    pub fn number(self) -> u8
        ensures { result ≡ number_of self }
    {
        match self {
            Refusal::ShortStore => 1,
            Refusal::NoNumberLeft => 2,
            Refusal::WrongStates => 3,
            Refusal::WrongChildren => 4,
            Refusal::NoNode => 5,
            Refusal::InUse => 6,
            Refusal::Repeated => 7,
            Refusal::NotPart => 8,
            Refusal::NotJoined => 9,
            Refusal::StaleChild => 10,
            Refusal::LongArm => 11,
            Refusal::LongResult => 12,
            Refusal::Stale => 13,
            Refusal::NoTerm => 14,
        }
    }

    // The outcome of a question: a no is told by this refusal.
    pub(crate) fn unless(self, yes: bool) -> Result<(), Refusal>
        ensures yes { OnOk result (IsTrue yes) }
        ensures no { OnErr result (IsFalse yes) }
        ensures told { IfErr result (λ e. e ≡ self) }
    {
        if yes { Ok(()) } else { Err(self) }
    }
}
