//! Scenarios: in which of 32 scenarios. The sum is the union, the product the intersection.
ghost use Rattle.kinds.specs.Words.{zero_word, holds_number, union, intersection};
ghost use Rattle.kinds.specs.WordLaws.{only_zero, union_assoc, union_comm, union_none};
ghost use Rattle.kinds.specs.WordLaws.{union_is_none, intersection_assoc, intersection_comm};
ghost use Rattle.kinds.specs.WordLaws.{intersection_union, intersection_none};
ghost use Rattle.std.proofs.Common.{refl};

use crate::values::Scenarios;
use crate::weight::Weight;

impl Weight for Scenarios {
    ghost nothing = { zero_word };

    ghost sum = { union };

    ghost product = { intersection };

    ghost is_nothing = { holds_number 0 };

    ghost test_accepts_nothing = { refl };

    ghost test_accepts_only_nothing = { only_zero };

    ghost sum_associative = { union_assoc };

    ghost sum_commutative = { union_comm };

    ghost sum_neutral = { union_none };

    ghost sum_none = { union_is_none };

    ghost product_associative = { intersection_assoc };

    ghost product_commutative = { intersection_comm };

    ghost product_distributes = { intersection_union };

    ghost product_nothing = { intersection_none };

    fn none() -> Scenarios {
        Scenarios::new(0)
    }

    fn plus(self, other: Scenarios) -> Scenarios {
        self.union(other)
    }

    fn times(self, other: Scenarios) -> Scenarios {
        self.intersection(other)
    }

    fn is_nothing(self) -> bool {
        self.is_zero()
    }
}
