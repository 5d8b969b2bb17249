//! Fault set: classes of faults. A series shows what either shows, parallel ways what both show.
ghost use Rattle.std.specs.Prelude.{◌≡◌, false, IfSome};
ghost use Rattle.kinds.specs.OuterArms.{IsAbsent};
ghost use Rattle.kinds.specs.FaultSets.{faults_bridge, faults_meets};
ghost use Rattle.kinds.specs.Words.{word_compared, union, intersection};
ghost use Rattle.kinds.specs.WordLaws.{compared_same, compared_itself};
ghost use Rattle.kinds.specs.WordLaws.{compared_swapped, compared_less};
ghost use Rattle.kinds.specs.WordLaws.{union_assoc, union_comm};
ghost use Rattle.kinds.specs.WordLaws.{intersection_assoc, intersection_comm};

use crate::capped::TOP32;
use crate::performance::Performance;
use crate::values::FaultSet;
use std::cmp::Ordering;

impl Performance for FaultSet {
    const SERIES_ORDER_COUNTS: bool = false;

    const PARALLEL_ORDER_COUNTS: bool = false;

    ghost SERIES_ORDER_COUNTS = { false };

    ghost PARALLEL_ORDER_COUNTS = { false };

    ghost compared = { word_compared };

    ghost series = { union };

    ghost parallel = { intersection };

    ghost bridge = { faults_bridge };

    ghost meets = { faults_meets };

    ghost same_identical = { compared_same };

    ghost identical_same = { compared_itself };

    ghost swapped = { compared_swapped };

    ghost less_transitive = { compared_less };

    ghost series_associative = { union_assoc };

    ghost parallel_associative = { intersection_assoc };

    ghost series_commutative = { λ e. union_comm };

    ghost parallel_commutative = { λ e. intersection_comm };

    fn order(self, other: FaultSet) -> Ordering {
        self.cmp(&other)
    }

    fn in_series(self, other: FaultSet) -> FaultSet {
        self.union(other)
    }

    fn in_parallel(self, other: FaultSet) -> FaultSet {
        self.intersection(other)
    }

    fn in_bridge(a: FaultSet, b: FaultSet, c: FaultSet, d: FaultSet, e: FaultSet) -> FaultSet {
        let without = without_c(a, b, d, e);
        let around = around_c(a, b, d, e);
        without.intersection(around.union(c))
    }

    fn satisfies(self, demand: FaultSet) -> bool {
        self.intersection(demand) == self
    }

    fn slot(self) -> u8 {
        self.low_byte()
    }

    fn reduce(a: &mut FaultSet, b: &mut FaultSet, d: &mut FaultSet, e: &mut FaultSet) {
        let without = without_c(*a, *b, *d, *e);
        // Cut at `without`, past which nothing of it counts: so more choices are alike.
        let around = around_c(*a, *b, *d, *e).intersection(without);
        *a = FaultSet::new(0);
        *b = without;
        *d = without;
        *e = around;
    }

    fn absent() -> Option<FaultSet>
        ensures { IfSome result (IsAbsent union intersection faults_bridge) }
    {
        Some(FaultSet::new(TOP32))
    }
}

// What the paths a-d and b-e both show.
#[inline]
fn without_c(a: FaultSet, b: FaultSet, d: FaultSet, e: FaultSet) -> FaultSet
    ensures { result ≡ intersection (union a d) (union b e) }
{
    a.union(d).intersection(b.union(e))
}

// What the paths a-c-e and b-c-d both show beside c.
#[inline]
fn around_c(a: FaultSet, b: FaultSet, d: FaultSet, e: FaultSet) -> FaultSet
    ensures { result ≡ intersection (union a e) (union b d) }
{
    a.union(e).intersection(b.union(d))
}
