//! The values of the named kinds and weights.
use crate::word::Word;

/// What passes, in a unit of time.
pub type Flow = Word<Rate>;

/// How long it takes; the largest number is never.
pub type Delay = Word<Time>;

/// The classes of faults that show: bit i is class i.
pub type FaultSet = Word<Classes>;

/// The number of the fault that is met first; 0 is healthy.
pub type FirstFault = Word<FaultNumber>;

/// How many parts of a whole.
pub type Parts = Word<Count>;

/// In which of 32 scenarios: bit i is scenario i.
pub type Scenarios = Word<Members>;

/// What it costs; the largest number says that it cannot be had.
pub type Effort = Word<Cost>;

/// What a flow is a word of. There is no value of it, nor of the others that name words.
pub enum Rate {}

/// What a delay is a word of.
pub enum Time {}

/// What a fault set is a word of.
pub enum Classes {}

/// What a first fault is a word of.
pub enum FaultNumber {}

/// What parts are a word of.
pub enum Count {}

/// What scenarios are a word of.
pub enum Members {}

/// What an effort is a word of.
pub enum Cost {}

/// Two performances side by side.
#[derive(Clone, Copy, PartialEq, Eq, Debug)]
pub struct Pair<A, B> {
    /// The performance of the first kind.
    pub first: A,
    /// The performance of the second kind.
    pub second: B,
}

/// A performance, or no service at all.
///
/// Not `Option`: out is a performance, with an order and a place in each operation.
#[derive(Clone, Copy, PartialEq, Eq, Debug)]
pub enum OrOut<K> {
    /// No service at all: less than every working value.
    Out,
    /// A performance of the kind within.
    Working(K),
}
