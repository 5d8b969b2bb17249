//! Batches as a kind of weight: how many of a state there are in all, counted up to the top.
ghost use Rattle.grades.specs.BatchesWeight.{no_batches, batches_sum, batches_product, are_none};
ghost use Rattle.grades.specs.BatchesLaws.{only_none, sum_assoc, sum_none, sum_is_none};
ghost use Rattle.grades.specs.BatchesLaws.{product_assoc, product_sum, product_none};
ghost use Rattle.std.proofs.Common.{rules};

use crate::batches::Batches;
use kinds::weight::Weight;

impl Weight for Batches {
    ghost nothing = { no_batches };

    ghost sum = { batches_sum };

    ghost product = { batches_product };

    ghost is_nothing = { are_none };

    ghost test_accepts_nothing = { Prim.search rules };

    ghost test_accepts_only_nothing = { only_none };

    ghost sum_associative = { sum_assoc };

    ghost sum_commutative = { Prim.search rules };

    ghost sum_neutral = { sum_none };

    ghost sum_none = { sum_is_none };

    ghost product_associative = { product_assoc };

    ghost product_commutative = { Prim.search rules };

    ghost product_distributes = { product_sum };

    ghost product_nothing = { product_none };

    fn none() -> Batches {
        Batches::new(0)
    }

    fn plus(self, other: Batches) -> Batches {
        self.capped_sum(other)
    }

    fn times(self, other: Batches) -> Batches {
        self.capped_product(other)
    }

    fn is_nothing(self) -> bool {
        self.number() == 0
    }
}
