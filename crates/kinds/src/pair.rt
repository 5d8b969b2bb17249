//! The pair of two kinds: each side works by itself, and both must meet.
ghost use Rattle.std.specs.Prelude.{◌≡◌, ◌||◌, IfSome};
ghost use Rattle.kinds.specs.Pairs.{pair_compared, pair_joined, pair_bridge, pair_meets};
ghost use Rattle.kinds.specs.Pairs.{PairAbsent};
ghost use Rattle.kinds.specs.PairLaws.{pair_less};
ghost use Rattle.std.proofs.Common.{rules};

use crate::performance::Performance;
use crate::values::Pair;
use std::cmp::Ordering;

impl<A: Performance, B: Performance> Performance for Pair<A, B> {
    const SERIES_ORDER_COUNTS: bool = A::SERIES_ORDER_COUNTS || B::SERIES_ORDER_COUNTS;

    const PARALLEL_ORDER_COUNTS: bool = A::PARALLEL_ORDER_COUNTS || B::PARALLEL_ORDER_COUNTS;

    ghost SERIES_ORDER_COUNTS = { A.SERIES_ORDER_COUNTS || B.SERIES_ORDER_COUNTS };

    ghost PARALLEL_ORDER_COUNTS = { A.PARALLEL_ORDER_COUNTS || B.PARALLEL_ORDER_COUNTS };

    ghost compared = { pair_compared A.compared B.compared };

    ghost series = { pair_joined A.series B.series };

    ghost parallel = { pair_joined A.parallel B.parallel };

    ghost bridge = { pair_bridge A.bridge B.bridge };

    ghost meets = { pair_meets A.meets B.meets };

    ghost same_identical = { Prim.search rules };

    ghost identical_same = { Prim.search rules };

    ghost swapped = { Prim.search rules };

    ghost less_transitive = { pair_less A.same_identical A.less_transitive
        B.less_transitive };

    ghost series_associative = { Prim.search rules };

    ghost parallel_associative = { Prim.search rules };

    ghost series_commutative = { Prim.search rules };

    ghost parallel_commutative = { Prim.search rules };

    fn order(self, other: Self) -> Ordering {
        // Not `then_with`: with it, a bridge of pairs takes a quarter longer.
        match self.first.order(other.first) {
            Ordering::Equal => self.second.order(other.second),
            unequal => unequal,
        }
    }

    fn in_series(self, other: Self) -> Self {
        Pair {
            first: self.first.in_series(other.first),
            second: self.second.in_series(other.second),
        }
    }

    fn in_parallel(self, other: Self) -> Self {
        Pair {
            first: self.first.in_parallel(other.first),
            second: self.second.in_parallel(other.second),
        }
    }

    fn in_bridge(a: Self, b: Self, c: Self, d: Self, e: Self) -> Self {
        Pair {
            first: A::in_bridge(a.first, b.first, c.first, d.first, e.first),
            second: B::in_bridge(a.second, b.second, c.second, d.second, e.second),
        }
    }

    fn satisfies(self, demand: Self) -> bool {
        self.first.satisfies(demand.first) & self.second.satisfies(demand.second)
    }

    fn slot(self) -> u8 {
        self.first.slot().wrapping_mul(17) ^ self.second.slot()
    }

    fn reduce(a: &mut Self, b: &mut Self, d: &mut Self, e: &mut Self) {
        A::reduce(&mut a.first, &mut b.first, &mut d.first, &mut e.first);
        B::reduce(&mut a.second, &mut b.second, &mut d.second, &mut e.second);
    }

    fn absent() -> Option<Self>
        ensures { IfSome result (PairAbsent A.Performance B.Performance) }
    {
        Some(pair(A::absent()?, B::absent()?))
    }
}

fn pair<A: Copy, B: Copy>(first: A, second: B) -> Pair<A, B>
    ensures { result ≡ record { first = first; second = second } }
{
    Pair { first, second }
}
