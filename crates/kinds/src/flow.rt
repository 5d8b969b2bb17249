//! Flow: what passes in a unit of time. A series passes the smaller, parallel ways add up.
//!
//! Series and parallel are those of flow transmission with dispersion in Levitin, "The Universal
//! Generating Function in Reliability Analysis and Optimization" (2005).
ghost use Rattle.std.specs.Prelude.{◌≡◌, false, IfSome};
ghost use Rattle.kinds.specs.OuterArms.{IsAbsent};
ghost use Rattle.kinds.specs.Flows.{flow_bridge, flow_meets};
ghost use Rattle.kinds.specs.Words.{word_compared, smaller, word_sum};
ghost use Rattle.kinds.specs.WordLaws.{compared_same, compared_itself};
ghost use Rattle.kinds.specs.WordLaws.{compared_swapped, compared_less};
ghost use Rattle.kinds.specs.WordLaws.{smaller_assoc, smaller_comm, sum_assoc, sum_comm};

use crate::performance::Performance;
use crate::values::Flow;
use std::cmp::Ordering;

impl Performance for Flow {
    const SERIES_ORDER_COUNTS: bool = false;

    const PARALLEL_ORDER_COUNTS: bool = false;

    ghost SERIES_ORDER_COUNTS = { false };

    ghost PARALLEL_ORDER_COUNTS = { false };

    ghost compared = { word_compared };

    ghost series = { smaller };

    ghost parallel = { word_sum };

    ghost bridge = { flow_bridge };

    ghost meets = { flow_meets };

    ghost same_identical = { compared_same };

    ghost identical_same = { compared_itself };

    ghost swapped = { compared_swapped };

    ghost less_transitive = { compared_less };

    ghost series_associative = { smaller_assoc };

    ghost parallel_associative = { sum_assoc };

    ghost series_commutative = { λ e. smaller_comm };

    ghost parallel_commutative = { λ e. sum_comm };

    fn order(self, other: Flow) -> Ordering {
        self.cmp(&other)
    }

    fn in_series(self, other: Flow) -> Flow {
        self.smaller(other)
    }

    fn in_parallel(self, other: Flow) -> Flow {
        self.capped_sum(other)
    }

    #[tactic(auto, using(crate::proofs::Crossing::flow_crossed))]
    fn in_bridge(a: Flow, b: Flow, c: Flow, d: Flow, e: Flow) -> Flow {
        // With the other arms picked, only the last line is left for each c.
        let without = without_c(a, b, d, e);
        let around = around_c(a, b, d, e);
        without.smaller(around.capped_sum(c))
    }

    fn satisfies(self, demand: Flow) -> bool {
        self >= demand
    }

    fn slot(self) -> u8 {
        self.low_byte()
    }

    fn reduce(a: &mut Flow, b: &mut Flow, d: &mut Flow, e: &mut Flow) {
        let without = without_c(*a, *b, *d, *e);
        // Cut at `without`, past which nothing of it counts: so more choices are alike.
        let around = around_c(*a, *b, *d, *e).smaller(without);
        *a = Flow::new(0);
        *b = without;
        *d = without;
        *e = around;
    }

    fn absent() -> Option<Flow>
        ensures { IfSome result (IsAbsent smaller word_sum flow_bridge) }
    {
        Some(Flow::new(0))
    }
}

// What the cuts a-b and d-e let pass.
#[inline]
fn without_c(a: Flow, b: Flow, d: Flow, e: Flow) -> Flow
    ensures { result ≡ smaller (word_sum a b) (word_sum d e) }
{
    a.capped_sum(b).smaller(d.capped_sum(e))
}

// What the cuts a-c-e and b-c-d let pass beside c.
#[inline]
fn around_c(a: Flow, b: Flow, d: Flow, e: Flow) -> Flow
    ensures { result ≡ smaller (word_sum a e) (word_sum b d) }
{
    a.capped_sum(e).smaller(b.capped_sum(d))
}
