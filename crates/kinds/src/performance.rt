//! What a kind of performance is: values, five operations on them, and the laws these keep.
ghost use Rattle.std.specs.Prelude.{◌≡◌, Bool, false, IfSome};
ghost use Rattle.std.specs.declared.cmp.Ordering.TheVariants.{Less, Equal};
ghost use Rattle.std.specs.declared.cmp.Ordering.{Ordering};
ghost use Rattle.std.specs.Ordering.{ordering_reverse};
ghost use Rattle.kinds.specs.OuterArms.{outer_arms, SameAround, IsAbsent};
ghost use Rattle.kinds.specs.Paths.{by_paths};

use std::cmp::Ordering;

/// The outer arms of a bridge, all but arm c.
///
/// Arms a and b leave the source, d and e reach the sink, and c joins the middles.
#[derive(Clone, Copy)]
pub struct OuterArms<P> {
    /// From the source to the first middle.
    pub a: P,
    /// From the source to the second middle.
    pub b: P,
    /// From the first middle to the sink.
    pub d: P,
    /// From the second middle to the sink.
    pub e: P,
}

/// A kind of performance, whose values are those of the type.
///
/// They are Copy: an operation refuses nothing and changes nothing.
pub trait Performance: Copy {
    /// Whether the order of the operands counts in series; where it does not, a law says so.
    const SERIES_ORDER_COUNTS: bool;

    /// Whether the order of the operands counts in parallel; where it does not, a law says so.
    const PARALLEL_ORDER_COUNTS: bool;

    // the constants once more, for clauses: proved equal to them
    ghost SERIES_ORDER_COUNTS: { Bool };

    ghost PARALLEL_ORDER_COUNTS: { Bool };

    ghost compared: { Self → Self → Ordering };

    ghost series: { Self → Self → Self };

    ghost parallel: { Self → Self → Self };

    // the arms a, b, c, d, e: a and b leave the source, d and e reach the sink, c joins the middles
    ghost bridge: { Self → Self → Self → Self → Self → Self };

    // a value held against a demand
    ghost meets: { Self → Self → Bool };

    /// The order of the values, which tells Equal exactly of identical ones.
    ///
    /// Not `Ord` as a supertrait: each definition on a kind would take its ghosts besides.
    fn order(self, other: Self) -> Ordering
        ensures { result ≡ compared self other };

    /// What one after the other performs.
    fn in_series(self, other: Self) -> Self
        ensures { result ≡ series self other };

    /// What one beside the other performs.
    fn in_parallel(self, other: Self) -> Self
        ensures { result ≡ parallel self other };

    /// What a bridge of five arms performs: a and b leave the source, d and e reach the sink, and c
    /// joins the middles.
    fn in_bridge(a: Self, b: Self, c: Self, d: Self, e: Self) -> Self
        ensures { result ≡ bridge a b c d e };

    /// Whether the value meets a demand.
    fn satisfies(self, demand: Self) -> bool
        ensures { result ≡ meets self demand };

    /// A number by which a row remembers where it last found this performance.
    ///
    /// Any number is right; the fewer of a row are alike, the fewer searches there are.
    fn slot(self) -> u8 {
        0
    }

    /// Changes the outer arms of a bridge to others that do the same around every arm c, and
    /// without one.
    ///
    /// Any such arms are right; the fewer forms they have, the less often a bridge goes through its
    /// arm c. Four borrows: for a struct of the arms the toolchain gives impls no clause.
    fn reduce(a: &mut Self, b: &mut Self, d: &mut Self, e: &mut Self)
        ensures { SameAround series parallel bridge
            (outer_arms a.old b.old d.old e.old) (outer_arms a.new b.new d.new e.new) }
    {}

    /// A performance of which an arm does as if it were not there, or None if the kind tells none.
    ///
    /// A kind with out takes it for an outer arm that is out.
    fn absent() -> Option<Self>
        ensures { IfSome result (IsAbsent series parallel bridge) }
    {
        None
    }

    /// A bridge by its paths, for kinds that want it: a-d, b-e, a-c-e and b-c-d in series, joined
    /// in parallel in this order.
    fn through_paths(a: Self, b: Self, c: Self, d: Self, e: Self) -> Self
        ensures { result ≡ by_paths series parallel a b c d e }
    {
        let upper = a.in_series(d);
        let lower = b.in_series(e);
        let down = a.in_series(c).in_series(e);
        let up = b.in_series(c).in_series(d);
        upper.in_parallel(lower).in_parallel(down).in_parallel(up)
    }

    ghost same_identical: { (a b : Self) → compared a b ≡ Equal → a ≡ b };

    ghost identical_same: { (a : Self) → compared a a ≡ Equal };

    ghost swapped: { (a b : Self) → compared b a ≡ ordering_reverse (compared a b) };

    ghost less_transitive: { (a b c : Self) →
        compared a b ≡ Less → compared b c ≡ Less → compared a c ≡ Less };

    ghost series_associative: { (a b c : Self) → series (series a b) c ≡ series a (series b c) };

    ghost parallel_associative: { (a b c : Self) →
        parallel (parallel a b) c ≡ parallel a (parallel b c) };

    ghost series_commutative: { SERIES_ORDER_COUNTS ≡ false →
        (a b : Self) → series a b ≡ series b a };

    ghost parallel_commutative: { PARALLEL_ORDER_COUNTS ≡ false →
        (a b : Self) → parallel a b ≡ parallel b a };
}
