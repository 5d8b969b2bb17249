//! What rows, combinations and sums keep, for every lawful kind and weight; each theorem is the
//! contract of a function.
ghost use Rattle.terms.specs.Laws.{OneRow, OneAnswer, BridgingKeeps, SummingKeeps};
ghost use Rattle.terms.specs.Laws.{CombiningKeeps, CombiningAssociates, CombiningCommutes};

use kinds::performance::Performance;
use kinds::weight::Weight;

/// A list of terms has one row, and a merging of it into a room of some length one answer.
pub fn rows_are_unique<P: Performance, W: Weight>()
    ensures row { OneRow P.Performance W.Weight }
    ensures answer { OneAnswer P.Performance W.Weight }
{}

/// Combining in series or in parallel depends on the distributions alone, associates, and commutes
/// where the kind says that order does not count.
pub fn combining_keeps_laws<P: Performance, W: Weight>()
    ensures keeps { CombiningKeeps P.Performance W.Weight }
    ensures associates { CombiningAssociates P.Performance W.Weight }
    ensures commutes { CombiningCommutes P.Performance W.Weight }
{}

/// A bridge depends on the distributions of its arms alone.
pub fn bridging_keeps_distributions<P: Performance, W: Weight>()
    ensures { BridgingKeeps P.Performance W.Weight }
{}

/// Sums over a list depend on its distribution alone.
pub fn summing_keeps_distributions<P: Performance, W: Weight>()
    ensures { SummingKeeps P.Performance W.Weight }
{}
