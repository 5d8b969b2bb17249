//! Whether the order of the operands counts, in series and in parallel.
ghost use Rattle.std.specs.Prelude.{◌≡◌};
ghost use mir.Syntax.{Dict};
ghost use Rattle.kinds.specs.contracts.or_out.OrOutPerformance.TheImpl.{ghosts as or_out_kind};
ghost use Rattle.kinds.specs.contracts.pair.PairPerformance.TheImpl.{ghosts as pair_kind};
ghost use Rattle.kinds.specs.Declares.{NamedDeclare, DeclaresEither, DeclaresAs};

use crate::performance::Performance;
use crate::values::{OrOut, Pair};

/// What a kind declares, for series and for parallel.
pub fn order_counts<K: Performance>() -> (bool, bool)
    ensures { result ≡ (K.SERIES_ORDER_COUNTS, K.PARALLEL_ORDER_COUNTS) }
{
    (K::SERIES_ORDER_COUNTS, K::PARALLEL_ORDER_COUNTS)
}

/// What the named kinds declare: of them, order counts for first fault alone.
pub fn named_kinds_declare()
    ensures { NamedDeclare }
{}

/// What pairs and kinds with out declare: that order counts where it does for a kind within.
///
/// Clauses `pair_any` and `or_out_any` say it of whatever impls the `Dict`s stand for.
pub fn composed_kinds_declare<A: Performance, B: Performance>()
    ensures pair { DeclaresEither ⟦<Pair<A, B> as Performance>⟧ A.Performance B.Performance }
    ensures pair_any { (d e d' e' : Dict) → DeclaresEither
        (pair_kind A.row B.row A.Performance d ⟦<A as Clone>⟧ e B.Performance d' ⟦<B as Clone>⟧ e')
        A.Performance B.Performance }
    ensures or_out_any { (d e : Dict) → DeclaresAs
        (or_out_kind A.row A.Performance d ⟦<A as Clone>⟧ e) A.Performance }
    ensures or_out { DeclaresAs ⟦<OrOut<A> as Performance>⟧ A.Performance }
{}
