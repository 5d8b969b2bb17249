//! First fault: the number of the fault that is met first; 0 is healthy. Order counts.
ghost use Rattle.std.specs.Prelude.{◌≡◌, true};
ghost use Rattle.kinds.specs.FirstFaults.{first_series, first_parallel, first_bridge, first_meets};
ghost use Rattle.kinds.specs.Words.{word_compared};
ghost use Rattle.kinds.specs.WordLaws.{compared_same, compared_itself};
ghost use Rattle.kinds.specs.WordLaws.{compared_swapped, compared_less};
ghost use Rattle.std.proofs.Common.{rules};

use crate::performance::Performance;
use crate::values::FirstFault;
use std::cmp::Ordering;

impl Performance for FirstFault {
    const SERIES_ORDER_COUNTS: bool = true;

    const PARALLEL_ORDER_COUNTS: bool = true;

    ghost SERIES_ORDER_COUNTS = { true };

    ghost PARALLEL_ORDER_COUNTS = { true };

    ghost compared = { word_compared };

    ghost series = { first_series };

    ghost parallel = { first_parallel };

    ghost bridge = { first_bridge };

    ghost meets = { first_meets };

    ghost same_identical = { compared_same };

    ghost identical_same = { compared_itself };

    ghost swapped = { compared_swapped };

    ghost less_transitive = { compared_less };

    ghost series_associative = { Prim.search rules };

    ghost parallel_associative = { Prim.search rules };

    ghost series_commutative = { Prim.search rules };

    ghost parallel_commutative = { Prim.search rules };

    fn order(self, other: FirstFault) -> Ordering {
        self.cmp(&other)
    }

    fn in_series(self, other: FirstFault) -> FirstFault {
        if self.is_zero() { other } else { self }
    }

    fn in_parallel(self, other: FirstFault) -> FirstFault {
        if !self.is_zero() && other.is_zero() {
            other
        } else {
            self
        }
    }

    fn in_bridge(
        a: FirstFault,
        b: FirstFault,
        c: FirstFault,
        d: FirstFault,
        e: FirstFault,
    ) -> FirstFault {
        // A fault in c is met by no path first, but keeps two of them from being healthy.
        let without = without_c(a, b, d, e);
        let around = around_c(a, b, d, e);
        if c.is_zero() {
            without.in_parallel(around)
        } else {
            without
        }
    }

    fn satisfies(self, demand: FirstFault) -> bool {
        self.is_zero() || self == demand
    }

    fn slot(self) -> u8 {
        self.low_byte()
    }

    fn reduce(a: &mut FirstFault, b: &mut FirstFault, d: &mut FirstFault, e: &mut FirstFault) {
        // Of two faults in parallel the first counts, so `without` stands before `around`.
        let without = without_c(*a, *b, *d, *e);
        let around = without.in_parallel(around_c(*a, *b, *d, *e));
        *a = FirstFault::new(0);
        *b = without;
        *d = without;
        *e = around;
    }
}

// What is met first on the paths a-d and b-e.
#[inline]
fn without_c(a: FirstFault, b: FirstFault, d: FirstFault, e: FirstFault) -> FirstFault
    ensures { result ≡ first_parallel (first_series a d) (first_series b e) }
{
    a.in_series(d).in_parallel(b.in_series(e))
}

// What is met first on the paths a-c-e and b-c-d where c is healthy.
#[inline]
fn around_c(a: FirstFault, b: FirstFault, d: FirstFault, e: FirstFault) -> FirstFault
    ensures { result ≡ first_parallel (first_series a e) (first_series b d) }
{
    a.in_series(e).in_parallel(b.in_series(d))
}
