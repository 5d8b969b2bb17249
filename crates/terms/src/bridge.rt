//! The row of all the combinations of the five arms of a bridge.
ghost use Rattle.std.specs.Prelude.{◌≡◌, ◌↔◌, IsTrue};
ghost use Rattle.kinds.specs.OuterArms.{outer_arms, SameAround};
ghost use Rattle.terms.specs.Merging.{Merges};
ghost use Rattle.terms.specs.Combinations.{bridges};

use crate::row::{Group, Row, like};
use crate::term::Term;
use kinds::performance::{OuterArms, Performance};
use kinds::weight::Weight;

/// Merges the combinations of the arms a to e into their row, in the first places of `room`, and
/// answers its length.
///
/// None where the row is longer than the room, however many combinations there are.
pub fn bridge<P: Performance, W: Weight>(
    arm_a: &[Term<P, W>],
    arm_b: &[Term<P, W>],
    arm_c: &[Term<P, W>],
    arm_d: &[Term<P, W>],
    arm_e: &[Term<P, W>],
    room: &mut [Term<P, W>],
) -> Option<usize>
    ensures { Merges P.Performance W.Weight
        (bridges P.Performance W.Weight arm_a.now arm_b.now arm_c.now arm_d.now arm_e.now)
        room.new result }
{
    let arms = Arms {
        b: arm_b,
        d: arm_d,
        e: arm_e,
        c: arm_c,
    };
    Row::of_each(arm_a, room, |row, a| arms.with_a(a, row))
}

// The arms that are picked from after arm a. The weight of the term picked last is the product of
// all those picked. Arm c comes last: once the flow, say, through the other four is known, more of
// c mostly changes nothing, so that many like performances follow one another. A function for each
// level: closures within closures would stand five deep, and need the same clauses.
#[derive(Clone, Copy)]
struct Arms<'a, P, W> {
    b: &'a [Term<P, W>],
    d: &'a [Term<P, W>],
    e: &'a [Term<P, W>],
    c: &'a [Term<P, W>],
}

impl<P: Performance, W: Weight> Arms<'_, P, W> {
    ghost use Rattle.terms.specs.Growing.{Grows};
    ghost use Rattle.terms.specs.Picking.{with_a, with_b, with_d, with_outer};

    // Arm a picked: every b with all of the arms after it.
    fn with_a(&self, a: Term<P, W>, row: &mut Row<P, W>) -> Option<()>
        ensures { Grows P.Performance W.Weight
            (with_a P.Performance W.Weight a self.now) row.old row.new result }
    {
        row.for_each_times(
            a.weight,
            self.b,
            |row, b| self.with_b(a.performance, b, row),
        )
    }

    // Arms a and b picked: every d with all of e and c.
    fn with_b(&self, a: P, b: Term<P, W>, row: &mut Row<P, W>) -> Option<()>
        ensures { Grows P.Performance W.Weight
            (with_b P.Performance W.Weight a b self.now) row.old row.new result }
    {
        row.for_each_times(
            b.weight,
            self.d,
            |row, d| self.with_d(a, b.performance, d, row),
        )
    }

    // Arms a, b and d picked: every e with all of c, which is gone through once for each group of
    // outer arms that do the same around it. Not inlined: within the loops over a, b and d, those
    // over e and c would be left too few registers.
    #[inline(never)]
    fn with_d(&self, a: P, b: P, d: Term<P, W>, row: &mut Row<P, W>) -> Option<()>
        ensures { Grows P.Performance W.Weight
            (with_d P.Performance W.Weight a b d self.now) row.old row.new result }
    {
        row.for_each_group(
            d.weight,
            self.e,
            |e| reduced(a, b, d.performance, e),
            |p, q| like_arms(p, q),
            |row, group| self.with_outer(group, row),
        )
    }

    // All arms but c picked: every c.
    fn with_outer(&self, outer: Group<OuterArms<P>, W>, row: &mut Row<P, W>) -> Option<()>
        ensures { Grows P.Performance W.Weight
            (with_outer P.Performance W.Weight self.now.c.now outer.key outer.weight)
            row.old row.new result }
    {
        let OuterArms { a, b, d, e } = outer.key;
        row.put_each(outer.weight, self.c, |c| P::in_bridge(a, b, c, d, e))
    }
}

// Outer arms, reduced as the kind does.
fn reduced<P: Performance>(mut a: P, mut b: P, mut d: P, mut e: P) -> OuterArms<P>
    ensures { SameAround P.series P.parallel P.bridge (outer_arms a b d e) result }
{
    P::reduce(&mut a, &mut b, &mut d, &mut e);
    OuterArms { a, b, d, e }
}

// Whether two choices of outer arms are the same, by the kind's order: a kind need have no `==`.
fn like_arms<P: Performance>(p: OuterArms<P>, q: OuterArms<P>) -> bool
    ensures { IsTrue result ↔ (p ≡ q) }
{
    like(p.a, q.a) && like(p.b, q.b) && like(p.d, q.d) && like(p.e, q.e)
}
