//! Merging terms into a row in lent memory: one text for every kind and weight.
ghost use Rattle.terms.specs.Merging.{Merges, Adds};

use crate::row::Row;
use crate::term::Term;
use kinds::performance::Performance;
use kinds::weight::Weight;

/// Merges terms into their row, in the first places of `room`, and answers its length.
///
/// None where the row is longer than the room. What an answer leaves of the room is free.
pub fn merge<P: Performance, W: Weight>(
    terms: &[Term<P, W>],
    room: &mut [Term<P, W>],
) -> Option<usize>
    ensures { Merges P.Performance W.Weight terms.now room.new result }
{
    Row::of_each(terms, room, |row, t| row.put(t))
}

/// Adds one term to the row in the first `len` places of `room`, and answers the row's new length.
///
/// None where the row grows longer than the room, which then no longer holds it, or where the room
/// is shorter than `len`, and stays as it was.
pub fn add<P: Performance, W: Weight>(
    room: &mut [Term<P, W>],
    len: usize,
    t: Term<P, W>,
) -> Option<usize>
    ensures { Adds P.Performance W.Weight t len room.old room.new result }
{
    if len > room.len() {
        return None;
    }
    let mut row = Row::standing(room, len);
    row.put(t)?;
    Some(row.len)
}
