//! A kind brought from outside the library: a part is up or down.
ghost use Rattle.std.specs.Prelude.{false};
ghost use Rattle.worked.specs.Binaries.{binary_compared, both, either, binary_bridge, binary_meets};
ghost use Rattle.std.proofs.Common.{rules};

use crate::service::Service;
use kinds::performance::Performance;
use std::cmp::Ordering;

impl Performance for Service {
    const SERIES_ORDER_COUNTS: bool = false;

    const PARALLEL_ORDER_COUNTS: bool = false;

    ghost SERIES_ORDER_COUNTS = { false };

    ghost PARALLEL_ORDER_COUNTS = { false };

    ghost compared = { binary_compared };

    ghost series = { both };

    ghost parallel = { either };

    ghost bridge = { binary_bridge };

    ghost meets = { binary_meets };

    ghost same_identical = { Prim.search rules };

    ghost identical_same = { Prim.search rules };

    ghost swapped = { Prim.search rules };

    ghost less_transitive = { Prim.search rules };

    ghost series_associative = { Prim.search rules };

    ghost parallel_associative = { Prim.search rules };

    ghost series_commutative = { Prim.search rules };

    ghost parallel_commutative = { Prim.search rules };

    fn order(self, other: Service) -> Ordering {
        // The derived order; `Performance::order` says why it is no supertrait's.
        self.cmp(&other)
    }

    fn in_series(self, other: Service) -> Service {
        self.min(other)
    }

    fn in_parallel(self, other: Service) -> Service {
        self.max(other)
    }

    fn in_bridge(a: Service, b: Service, c: Service, d: Service, e: Service) -> Service {
        Service::through_paths(a, b, c, d, e)
    }

    fn satisfies(self, demand: Service) -> bool {
        self >= demand
    }
}
