//! A kind that only these sequences know: a series is as good as its worst part, parallel ways as
//! good as the best.
ghost use Rattle.std.specs.Prelude.{false};
ghost use Rattle.calls.specs.GradeKind.{grade_compared, worse, better, grade_bridge, grade_meets};
ghost use Rattle.calls.specs.GradeLaws.{compared_same, compared_itself};
ghost use Rattle.calls.specs.GradeLaws.{compared_swapped, compared_less};
ghost use Rattle.calls.specs.GradeLaws.{worse_assoc, worse_comm, better_assoc, better_comm};

use crate::grade::Grade;
use kinds::performance::Performance;
use std::cmp::Ordering;

impl Performance for Grade {
    const SERIES_ORDER_COUNTS: bool = false;

    const PARALLEL_ORDER_COUNTS: bool = false;

    ghost SERIES_ORDER_COUNTS = { false };

    ghost PARALLEL_ORDER_COUNTS = { false };

    ghost compared = { grade_compared };

    ghost series = { worse };

    ghost parallel = { better };

    ghost bridge = { grade_bridge };

    ghost meets = { grade_meets };

    ghost same_identical = { compared_same };

    ghost identical_same = { compared_itself };

    ghost swapped = { compared_swapped };

    ghost less_transitive = { compared_less };

    ghost series_associative = { worse_assoc };

    ghost parallel_associative = { better_assoc };

    ghost series_commutative = { λ e. worse_comm };

    ghost parallel_commutative = { λ e. better_comm };

    fn order(self, other: Grade) -> Ordering {
        self.number.cmp(&other.number)
    }

    fn in_series(self, other: Grade) -> Grade {
        Grade {
            number: self.number.min(other.number),
        }
    }

    fn in_parallel(self, other: Grade) -> Grade {
        Grade {
            number: self.number.max(other.number),
        }
    }

    fn in_bridge(a: Grade, b: Grade, c: Grade, d: Grade, e: Grade) -> Grade {
        Grade::through_paths(a, b, c, d, e)
    }

    fn satisfies(self, demand: Grade) -> bool {
        self.number >= demand.number
    }
}
