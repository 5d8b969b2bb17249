//! Grades as a kind of performance: a chain of steps is as good as its worst, and of parallel lines
//! the better counts.
ghost use Rattle.std.specs.Prelude.{false};
ghost use Rattle.grades.specs.GradeKind.{grade_compared, lower, higher, grade_bridge, grade_meets};
ghost use Rattle.grades.specs.GradeLaws.{compared_same, lower_assoc, lower_comm};
ghost use Rattle.grades.specs.GradeLaws.{higher_assoc, higher_comm};
ghost use Rattle.std.proofs.Common.{rules};

use crate::grade::Grade;
use kinds::performance::Performance;
use std::cmp::Ordering;

impl Performance for Grade {
    const SERIES_ORDER_COUNTS: bool = false;

    const PARALLEL_ORDER_COUNTS: bool = false;

    ghost SERIES_ORDER_COUNTS = { false };

    ghost PARALLEL_ORDER_COUNTS = { false };

    ghost compared = { grade_compared };

    ghost series = { lower };

    ghost parallel = { higher };

    ghost bridge = { grade_bridge };

    ghost meets = { grade_meets };

    ghost same_identical = { compared_same };

    ghost identical_same = { Prim.search rules };

    ghost swapped = { Prim.search rules };

    ghost less_transitive = { Prim.search rules };

    ghost series_associative = { lower_assoc };

    ghost parallel_associative = { higher_assoc };

    ghost series_commutative = { λ e. lower_comm };

    ghost parallel_commutative = { λ e. higher_comm };

    fn order(self, other: Grade) -> Ordering {
        self.cmp(&other)
    }

    fn in_series(self, other: Grade) -> Grade {
        self.lower(other)
    }

    fn in_parallel(self, other: Grade) -> Grade {
        self.higher(other)
    }

    fn in_bridge(a: Grade, b: Grade, c: Grade, d: Grade, e: Grade) -> Grade {
        Grade::through_paths(a, b, c, d, e)
    }

    fn satisfies(self, demand: Grade) -> bool {
        self >= demand
    }
}
