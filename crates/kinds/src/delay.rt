//! Delay: how long it takes. A series adds up, of parallel ways the faster counts; the largest
//! number is never.
//!
//! Series and parallel are those of processing times without work sharing in Levitin, "The
//! Universal Generating Function in Reliability Analysis and Optimization" (2005).
ghost use Rattle.std.specs.Prelude.{◌≡◌, false, IfSome};
ghost use Rattle.kinds.specs.OuterArms.{IsAbsent};
ghost use Rattle.kinds.specs.Delays.{delay_bridge, delay_meets};
ghost use Rattle.kinds.specs.Words.{word_compared, smaller, word_sum};
ghost use Rattle.kinds.specs.WordLaws.{compared_same, compared_itself};
ghost use Rattle.kinds.specs.WordLaws.{compared_swapped, compared_less};
ghost use Rattle.kinds.specs.WordLaws.{smaller_assoc, smaller_comm, sum_assoc, sum_comm};

use crate::capped::TOP32;
use crate::performance::Performance;
use crate::values::Delay;
use std::cmp::Ordering;

impl Performance for Delay {
    const SERIES_ORDER_COUNTS: bool = false;

    const PARALLEL_ORDER_COUNTS: bool = false;

    ghost SERIES_ORDER_COUNTS = { false };

    ghost PARALLEL_ORDER_COUNTS = { false };

    ghost compared = { word_compared };

    ghost series = { word_sum };

    ghost parallel = { smaller };

    ghost bridge = { delay_bridge };

    ghost meets = { delay_meets };

    ghost same_identical = { compared_same };

    ghost identical_same = { compared_itself };

    ghost swapped = { compared_swapped };

    ghost less_transitive = { compared_less };

    ghost series_associative = { sum_assoc };

    ghost parallel_associative = { smaller_assoc };

    ghost series_commutative = { λ e. sum_comm };

    ghost parallel_commutative = { λ e. smaller_comm };

    fn order(self, other: Delay) -> Ordering {
        self.cmp(&other)
    }

    fn in_series(self, other: Delay) -> Delay {
        self.capped_sum(other)
    }

    fn in_parallel(self, other: Delay) -> Delay {
        self.smaller(other)
    }

    #[tactic(auto, using(crate::proofs::Crossing::delay_crossed))]
    fn in_bridge(a: Delay, b: Delay, c: Delay, d: Delay, e: Delay) -> Delay {
        let without = without_c(a, b, d, e);
        let around = around_c(a, b, d, e);
        without.smaller(around.capped_sum(c))
    }

    fn satisfies(self, demand: Delay) -> bool {
        self <= demand && self.number() < TOP32
    }

    fn slot(self) -> u8 {
        self.low_byte()
    }

    fn reduce(a: &mut Delay, b: &mut Delay, d: &mut Delay, e: &mut Delay) {
        let without = without_c(*a, *b, *d, *e);
        // Cut at `without`, past which nothing of it counts: so more choices are alike.
        let around = around_c(*a, *b, *d, *e).smaller(without);
        *a = Delay::new(0);
        *b = without;
        *d = without;
        *e = around;
    }

    fn absent() -> Option<Delay>
        ensures { IfSome result (IsAbsent word_sum smaller delay_bridge) }
    {
        Some(Delay::new(TOP32))
    }
}

// How long the faster of the paths a-d and b-e takes.
#[inline]
fn without_c(a: Delay, b: Delay, d: Delay, e: Delay) -> Delay
    ensures { result ≡ smaller (word_sum a d) (word_sum b e) }
{
    a.capped_sum(d).smaller(b.capped_sum(e))
}

// How long the faster of the paths a-c-e and b-c-d takes beside c.
#[inline]
fn around_c(a: Delay, b: Delay, d: Delay, e: Delay) -> Delay
    ensures { result ≡ smaller (word_sum a e) (word_sum b d) }
{
    a.capped_sum(e).smaller(b.capped_sum(d))
}
