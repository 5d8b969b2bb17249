//! The row of all the combinations of two lists, in series or in parallel.
ghost use Rattle.std.specs.Prelude.{◌≡◌, [], ◌∷◌};
ghost use Rattle.terms.specs.Merging.{Merges};
ghost use Rattle.terms.specs.Growing.{Grows};
ghost use Rattle.terms.specs.Combinations.{each, joins, combined, combinations};

use crate::row::Row;
use crate::term::{Term, Way};
use kinds::performance::Performance;
use kinds::weight::Weight;

/// Merges the combinations of `xs` and `ys` into their row, in the first places of `room`, and
/// answers its length.
///
/// None where the row is longer than the room, however many combinations there are.
pub fn combine<P: Performance, W: Weight>(
    way: Way,
    xs: &[Term<P, W>],
    ys: &[Term<P, W>],
    room: &mut [Term<P, W>],
) -> Option<usize>
    ensures { Merges P.Performance W.Weight
        (combinations W.Weight (joins P.Performance way) xs.now ys.now) room.new result }
{
    Row::of_each(xs, room, |row, x| with_all(way, x, ys, row))
}

/// One term of each of two lists, together: the performances joined, the weights multiplied.
pub fn combine_terms<P: Performance, W: Weight>(
    way: Way,
    x: Term<P, W>,
    y: Term<P, W>,
) -> Term<P, W>
    ensures { result ≡ combined W.Weight (joins P.Performance way) x y }
{
    Term {
        performance: join(way, x.performance, y.performance),
        weight: x.weight.times(y.weight),
    }
}

// One x with all of `ys`. A function, since as a closure it needs the same clause.
fn with_all<P: Performance, W: Weight>(
    way: Way,
    x: Term<P, W>,
    ys: &[Term<P, W>],
    row: &mut Row<P, W>,
) -> Option<()>
    ensures { Grows P.Performance W.Weight
        (each ys.now (λ y. combined W.Weight (joins P.Performance way) x y ∷ []))
        row.old row.new result }
{
    row.put_each(x.weight, ys, |y| join(way, x.performance, y))
}

// Two performances, joined.
fn join<P: Performance>(way: Way, x: P, y: P) -> P
    ensures { result ≡ joins P.Performance way x y }
{
    match way {
        Way::Series => x.in_series(y),
        Way::Parallel => x.in_parallel(y),
    }
}
