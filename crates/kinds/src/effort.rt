//! Effort: a cost. The sum is the cheaper of two, the product what both cost; the largest number
//! says that it cannot be had.
ghost use Rattle.kinds.specs.Words.{top_word, holds_number, smaller, word_sum};
ghost use Rattle.kinds.specs.WordLaws.{only_top, smaller_assoc, smaller_comm, smaller_top};
ghost use Rattle.kinds.specs.WordLaws.{smaller_is_top, sum_assoc, sum_comm, sum_smaller, sum_top};
ghost use Rattle.std.proofs.Common.{refl};
ghost use Rattle.kinds.specs.Capped.{top32};

use crate::capped::TOP32;
use crate::values::Effort;
use crate::weight::Weight;

impl Weight for Effort {
    ghost nothing = { top_word };

    ghost sum = { smaller };

    ghost product = { word_sum };

    ghost is_nothing = { holds_number top32 };

    ghost test_accepts_nothing = { refl };

    ghost test_accepts_only_nothing = { only_top };

    ghost sum_associative = { smaller_assoc };

    ghost sum_commutative = { smaller_comm };

    ghost sum_neutral = { smaller_top };

    ghost sum_none = { smaller_is_top };

    ghost product_associative = { sum_assoc };

    ghost product_commutative = { sum_comm };

    ghost product_distributes = { sum_smaller };

    ghost product_nothing = { sum_top };

    fn none() -> Effort {
        Effort::new(TOP32)
    }

    fn plus(self, other: Effort) -> Effort {
        self.smaller(other)
    }

    fn times(self, other: Effort) -> Effort {
        self.capped_sum(other)
    }

    fn is_nothing(self) -> bool {
        self.number() == TOP32
    }
}
