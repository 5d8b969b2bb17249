//! The promise over all runs, for code that is handed a diagram which it has not made; and the
//! limits as numbers.
ghost use Rattle.std.specs.Prelude.{◌≡◌};
ghost use Rattle.diagram.specs.Counted.{WeightsStopOnce};
ghost use Rattle.diagram.specs.Runs.{AnswersRight, AnswersAlike};

use crate::limits::{ARM_TERMS, ARMS, CHILDREN, FEWEST_CHILDREN, NODES, ROWS, STORE, TERMS};
use kinds::performance::Performance;
use kinds::weight::Weight;

/// Whatever calls a diagram is given, each is answered right; and nodes that read the same answer
/// alike.
pub fn runs_are_right<P: Performance, W: Weight>()
    ensures answers_right { AnswersRight P.Performance W.Weight }
    ensures answers_alike { AnswersAlike P.Performance W.Weight }
{}

/// Where weights count up to a top, whatever a diagram answers is the truth, stopped at the top
/// once; and where the total is below the top, nothing was stopped.
pub fn weights_stop_once<P: Performance, W: Weight>()
    ensures { WeightsStopOnce P.Performance W.Weight }
{}

/// The limits, as numbers: code and definitions read the same constants.
pub fn limits_are_these()
    ensures nodes { NODES ≡ 48 }
    ensures fewest_children { FEWEST_CHILDREN ≡ 2 }
    ensures children { CHILDREN ≡ 8 }
    ensures arms { ARMS ≡ 5 }
    ensures terms { TERMS ≡ 64 }
    ensures arm_terms { ARM_TERMS ≡ 24 }
    ensures rows { ROWS ≡ 3072 }
    ensures store { STORE ≡ 3200 }
{}
