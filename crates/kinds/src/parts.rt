//! Parts: how many of a whole. Sums and products stop at the top.
//!
//! They add up and multiply as probabilities do in Levitin, "The Universal Generating Function in
//! Reliability Analysis and Optimization" (2005), but are whole numbers.
ghost use Rattle.kinds.specs.Words.{zero_word, holds_number, word_sum, word_product};
ghost use Rattle.kinds.specs.WordLaws.{only_zero, sum_assoc, sum_comm, sum_zero, sum_is_zero};
ghost use Rattle.kinds.specs.WordLaws.{product_assoc, product_comm, product_sum, product_zero};
ghost use Rattle.std.proofs.Common.{refl};

use crate::values::Parts;
use crate::weight::Weight;

impl Weight for Parts {
    ghost nothing = { zero_word };

    ghost sum = { word_sum };

    ghost product = { word_product };

    ghost is_nothing = { holds_number 0 };

    ghost test_accepts_nothing = { refl };

    ghost test_accepts_only_nothing = { only_zero };

    ghost sum_associative = { sum_assoc };

    ghost sum_commutative = { sum_comm };

    ghost sum_neutral = { sum_zero };

    ghost sum_none = { sum_is_zero };

    ghost product_associative = { product_assoc };

    ghost product_commutative = { product_comm };

    ghost product_distributes = { product_sum };

    ghost product_nothing = { product_zero };

    fn none() -> Parts {
        Parts::new(0)
    }

    fn plus(self, other: Parts) -> Parts {
        self.capped_sum(other)
    }

    fn times(self, other: Parts) -> Parts {
        self.capped_product(other)
    }

    fn is_nothing(self) -> bool {
        self.is_zero()
    }
}
