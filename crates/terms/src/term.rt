//! Terms, and the ways of combining lists of them.
ghost use Rattle.terms.specs.Shown.{term_output};

use std::fmt;

/// A performance and its weight, printed as `performance:weight`.
#[derive(Clone, Copy, PartialEq, Eq, Debug)]
pub struct Term<P, W> {
    /// What is delivered, a value of the kind.
    pub performance: P,
    /// How much it counts.
    pub weight: W,
}

impl<P: fmt::Display, W: fmt::Display> fmt::Display for Term<P, W> {
    ghost output = { λ t. term_output (P.output t.performance) (W.output t.weight) };

    fn fmt<O: fmt::Write>(&self, f: &mut fmt::Formatter<O>) -> fmt::Result {
        write!(f, "{}:{}", self.performance, self.weight)
    }
}

/// How two lists are combined.
#[derive(Clone, Copy, PartialEq, Eq, Debug)]
pub enum Way {
    /// By the kind's operation in series.
    Series,
    /// By the kind's operation in parallel.
    Parallel,
}
