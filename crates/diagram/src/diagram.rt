//! A diagram: its records, over a store that is lent to each call.
ghost use Rattle.diagram.specs.Records.{Sound};

use crate::table::Table;
use std::marker::PhantomData;

mod ask;
mod change;
mod collect;
mod new;

/// The diagram of a plant: parts, and nodes that are joined from them, by their numbers from 0.
///
/// Each call is lent a store of at least `STORE` terms, in which the rows of the nodes stand: lend
/// the same one each time, or another that begins with the same `ROWS` terms. Neither `Copy` nor
/// `Clone`: every diagram has one history.
#[derive(Drop)]
pub struct Diagram<P, W> {
    table: Table,
    kinds: PhantomData<(P, W)>,
    ghost sound: { Sound table },
}
