//! A kind with one more value, out: no service at all.
ghost use Rattle.std.specs.Prelude.{◌≡◌, IfSome};
ghost use Rattle.kinds.specs.OuterArms.{outer_arms};
ghost use Rattle.kinds.specs.Outs.{out_compared, out_series, out_parallel, out_bridge, out_meets};
ghost use Rattle.kinds.specs.Outs.{OneIsOut, working_arms, OutAround, OutAbsent};
ghost use Rattle.kinds.specs.OutLaws.{series_assoc, parallel_assoc, series_comm, parallel_comm};
ghost use Rattle.std.proofs.Common.{rules};

use crate::performance::{OuterArms, Performance};
use crate::values::OrOut;
use std::cmp::Ordering;

impl<K: Performance> Performance for OrOut<K> {
    const SERIES_ORDER_COUNTS: bool = K::SERIES_ORDER_COUNTS;

    const PARALLEL_ORDER_COUNTS: bool = K::PARALLEL_ORDER_COUNTS;

    ghost SERIES_ORDER_COUNTS = { K.SERIES_ORDER_COUNTS };

    ghost PARALLEL_ORDER_COUNTS = { K.PARALLEL_ORDER_COUNTS };

    ghost compared = { out_compared K.compared };

    ghost series = { out_series K.series };

    ghost parallel = { out_parallel K.parallel };

    ghost bridge = { out_bridge K.series K.parallel K.bridge };

    ghost meets = { out_meets K.meets };

    ghost same_identical = { Prim.search rules };

    ghost identical_same = { Prim.search rules };

    ghost swapped = { Prim.search rules };

    ghost less_transitive = { Prim.search rules };

    ghost series_associative = { series_assoc K.series K.series_associative };

    ghost parallel_associative = { parallel_assoc K.parallel K.parallel_associative };

    ghost series_commutative = { λ e. series_comm K.series (K.series_commutative e) };

    ghost parallel_commutative = { λ e. parallel_comm K.parallel (K.parallel_commutative e) };

    fn order(self, other: Self) -> Ordering {
        // No derive: that would compare by `Ord`, which K need not have; K has an order of its own.
        match (self, other) {
            (OrOut::Out, OrOut::Out) => Ordering::Equal,
            (OrOut::Out, OrOut::Working(_)) => Ordering::Less,
            (OrOut::Working(_), OrOut::Out) => Ordering::Greater,
            (OrOut::Working(v), OrOut::Working(w)) => v.order(w),
        }
    }

    fn in_series(self, other: Self) -> Self {
        match (self, other) {
            (OrOut::Working(v), OrOut::Working(w)) => OrOut::Working(v.in_series(w)),
            _ => OrOut::Out,
        }
    }

    fn in_parallel(self, other: Self) -> Self {
        match (self, other) {
            (OrOut::Working(v), OrOut::Working(w)) => OrOut::Working(v.in_parallel(w)),
            (OrOut::Out, working) => working,
            (working, OrOut::Out) => working,
        }
    }

    fn in_bridge(a: Self, b: Self, c: Self, d: Self, e: Self) -> Self {
        // The outer arms stay while c is gone through: a compiler asks them before that loop.
        if let (OrOut::Working(a), OrOut::Working(b), OrOut::Working(d), OrOut::Working(e)) = (
            a, b, d, e,
        ) {
            return OrOut::Working(match c {
                OrOut::Working(c) => K::in_bridge(a, b, c, d, e),
                OrOut::Out => a.in_series(d).in_parallel(b.in_series(e)),
            });
        }
        bridge_with_out(a, b, c, d, e)
    }

    fn satisfies(self, demand: Self) -> bool {
        match (self, demand) {
            (OrOut::Out, _) => false,
            (OrOut::Working(_), OrOut::Out) => true,
            (OrOut::Working(v), OrOut::Working(w)) => v.satisfies(w),
        }
    }

    fn slot(self) -> u8 {
        match self {
            OrOut::Out => 255,
            OrOut::Working(v) => v.slot(),
        }
    }

    fn reduce(a: &mut Self, b: &mut Self, d: &mut Self, e: &mut Self) {
        if let Some(inner) = inner_arms(*a, *b, *d, *e) {
            let OuterArms {
                a: mut inner_a,
                b: mut inner_b,
                d: mut inner_d,
                e: mut inner_e,
            } = inner;
            K::reduce(&mut inner_a, &mut inner_b, &mut inner_d, &mut inner_e);
            *a = OrOut::Working(inner_a);
            *b = OrOut::Working(inner_b);
            *d = OrOut::Working(inner_d);
            *e = OrOut::Working(inner_e);
        }
    }

    fn absent() -> Option<Self>
        ensures { IfSome result (OutAbsent K.Performance) }
    {
        Some(OrOut::Out)
    }
}

// The table of docs/KINDS.md, line by line, where an outer arm is out. Apart from `in_bridge`, and
// cold: it is rare, and its code within the loop over arm c would make every bridge slower.
#[cold]
#[inline(never)]
fn bridge_with_out<K: Performance>(
    a: OrOut<K>,
    b: OrOut<K>,
    c: OrOut<K>,
    d: OrOut<K>,
    e: OrOut<K>,
) -> OrOut<K>
    requires { OneIsOut a b d e }
    ensures { result ≡ out_bridge K.series K.parallel K.bridge a b c d e }
{
    match (a, b, c, d) {
        (a, b, OrOut::Out, d) => a.in_series(d).in_parallel(b.in_series(e)),
        (OrOut::Out, b, c, d) => b.in_series(e.in_parallel(c.in_series(d))),
        (a, OrOut::Out, c, d) => a.in_series(d.in_parallel(c.in_series(e))),
        (a, b, c, OrOut::Out) => a.in_series(c).in_parallel(b).in_series(e),
        // Arm e is out.
        (a, b, c, d) => a.in_parallel(b.in_series(c)).in_series(d),
    }
}

// Outer arms that all work and do the same as these: one that is out is taken for one that is
// absent, if K tells of any.
fn inner_arms<K: Performance>(
    a: OrOut<K>,
    b: OrOut<K>,
    d: OrOut<K>,
    e: OrOut<K>,
) -> Option<OuterArms<K>>
    ensures { IfSome result (λ inner.
        OutAround K.Performance (outer_arms a b d e) (working_arms inner)) }
{
    match (a, b, d, e) {
        (OrOut::Working(a), OrOut::Working(b), OrOut::Working(d), OrOut::Working(e)) => {
            Some(arms(a, b, d, e))
        }
        (OrOut::Out, OrOut::Working(b), OrOut::Working(d), OrOut::Working(e)) => {
            Some(arms(K::absent()?, b, d, e))
        }
        (OrOut::Working(a), OrOut::Out, OrOut::Working(d), OrOut::Working(e)) => {
            Some(arms(a, K::absent()?, d, e))
        }
        (OrOut::Working(a), OrOut::Working(b), OrOut::Out, OrOut::Working(e)) => {
            Some(arms(a, b, K::absent()?, e))
        }
        (OrOut::Working(a), OrOut::Working(b), OrOut::Working(d), OrOut::Out) => {
            Some(arms(a, b, d, K::absent()?))
        }
        _ => None,
    }
}

#[inline]
fn arms<K: Copy>(a: K, b: K, d: K, e: K) -> OuterArms<K>
    ensures { result ≡ outer_arms a b d e }
{
    OuterArms { a, b, d, e }
}
