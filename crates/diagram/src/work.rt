//! Working out rows in the store.
ghost use Rattle.std.specs.Prelude.{◌≡◌, ◌≢◌, ℕ, ◌<◌, ◌≤◌, length};
ghost use Rattle.diagram.specs.declared.node.Form.TheVariants.{Part, Joined};
ghost use Rattle.diagram.specs.Records.{Sound, form_at};
ghost use Rattle.diagram.specs.Store.{places_of, StandsAt, row_at, only};
ghost use Rattle.diagram.specs.WorkingOut.{RowMade, InStore, NodeFound, NodeWorkedOut};

use crate::limits::{NODES, ROWS, STORE, TERMS};
use crate::node::Form;
use crate::table::Table;
use kinds::performance::Performance;
use kinds::weight::Weight;
use terms::bridge::bridge;
use terms::combine::combine;
use terms::merge::merge;
use terms::term::{Term, Way};

// Puts the row of a part's states into the places of node k, and answers its length.
pub(crate) fn put_row<P: Performance, W: Weight>(
    store: &mut [Term<P, W>],
    k: usize,
    states: &[Term<P, W>],
) -> usize
    requires roomy { STORE ≤ length store.old }
    requires node { k < NODES }
    requires few { length states.now ≤ TERMS }
    ensures { RowMade P.Performance W.Weight k states.now store.old store.new result }
{
    // A row is no longer than its list.
    merge(states, &mut store[TERMS * k..TERMS * k + TERMS]).unwrap()
}

// Works out the row of node k from the rows of its children, in the working rows, and puts it into
// the places of k. None where a running result has more than `TERMS` terms.
pub(crate) fn work_out<P: Performance, W: Weight>(
    table: &Table,
    store: &mut [Term<P, W>],
    k: usize,
) -> Option<usize>
    requires sound { Sound table.now }
    requires node { k < table.now.count }
    requires joined { form_at table.now k ≢ Part }
    requires roomy { STORE ≤ length store.old }
    ensures { NodeWorkedOut P.Performance W.Weight table.now k store.old store.new result }
{
    let (rows, work) = store.split_at_mut(ROWS);
    let (room, work) = work.split_at_mut(TERMS);
    let (next, _) = work.split_at_mut(TERMS);
    let len = last_result(table, rows, k, room, next)?;
    copy_row(rows, k, &room[..len]);
    Some(len)
}

// Copies a row into the first places of node k.
fn copy_row<P: Performance, W: Weight>(rows: &mut [Term<P, W>], k: usize, row: &[Term<P, W>])
    requires node { k < NODES }
    requires rows { ROWS ≤ length rows.old }
    requires fits { length row.now ≤ TERMS }
    ensures stands { StandsAt k row.now rows.new }
    ensures others { (j : ℕ) → ¬ only k j → places_of j rows.new ≡ places_of j rows.old }
{
    rows[TERMS * k..TERMS * k + row.len()].copy_from_slice(row);
}

// The row of node k, which then stands in `room`. None where a running result has more than
// `TERMS` terms.
fn last_result<P: Performance, W: Weight>(
    table: &Table,
    rows: &[Term<P, W>],
    k: usize,
    room: &mut [Term<P, W>],
    next: &mut [Term<P, W>],
) -> Option<usize>
    requires sound { Sound table.now }
    requires node { k < table.now.count }
    requires joined { form_at table.now k ≢ Part }
    requires rows { ROWS ≤ length rows.now }
    requires room { length room.old ≡ TERMS }
    requires next { length next.old ≡ TERMS }
    ensures { NodeFound P.Performance W.Weight table.now rows.now k room.new result }
{
    if let Form::Joined(way) = table.nodes[k].form {
        return join_children(table, rows, k, way, room, next);
    }
    // No part, and joined in no way: a bridge.
    let arms = table.children_of(k);
    bridge(
        row_of(table, rows, arms[0]),
        row_of(table, rows, arms[1]),
        row_of(table, rows, arms[2]),
        row_of(table, rows, arms[3]),
        row_of(table, rows, arms[4]),
        room,
    )
}

// The running results of the children of k, one after the other from the left. The last one, which
// is the row of k, then stands in `room`.
fn join_children<P: Performance, W: Weight>(
    table: &Table,
    rows: &[Term<P, W>],
    k: usize,
    way: Way,
    room: &mut [Term<P, W>],
    next: &mut [Term<P, W>],
) -> Option<usize>
    requires sound { Sound table.now }
    requires node { k < table.now.count }
    requires joined { form_at table.now k ≡ Joined way }
    requires rows { ROWS ≤ length rows.now }
    requires room { length room.old ≡ TERMS }
    requires next { length next.old ≡ TERMS }
    ensures { NodeFound P.Performance W.Weight table.now rows.now k room.new result }
{
    let children = table.children_of(k);
    let row = row_of(table, rows, children[0]);
    let mut len = row.len();
    room[..len].copy_from_slice(row);
    for child in &children[1..] {
        len = combine(way, &room[..len], row_of(table, rows, *child), next)?;
        room[..len].copy_from_slice(&next[..len]);
    }
    Some(len)
}

// The row of node c.
pub(crate) fn row_of<'a, P, W>(table: &Table, rows: &'a [Term<P, W>], c: usize) -> &'a [Term<P, W>]
    requires node { InStore table.now c }
    requires rows { ROWS ≤ length rows.now }
    ensures { result.now ≡ row_at table.now rows.now c }
{
    &rows[TERMS * c..TERMS * c + table.nodes[c].size]
}
