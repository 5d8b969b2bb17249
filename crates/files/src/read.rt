//! Reading: from the bytes of a model file to a diagram and its demands.
ghost use Rattle.std.specs.Prelude.{◌↔◌, IsTrue};
ghost use Rattle.files.specs.Reading.{MayBeRecords, ReadsBack, ReadsOneWay};
ghost use Rattle.files.specs.StoreLeft.{LeftByReading};
ghost use Rattle.files.specs.ModelFiles.{ReadInto};

use crate::demands::Demands;
use crate::fault::Fault;
use crate::limits::{FEWEST_RECORDS, NO_RECORD, RECORDS, ROOM};
use crate::model_file::ModelFile;
use crate::nodes::draw_nodes;
use crate::words::{FilePerformance, FileWeight};
use diagram::diagram::Diagram;
use kinds::performance::Performance;
use kinds::weight::Weight;
use terms::term::Term;

/// Reads a model file from its second byte on, the number of records: the first names the model,
/// which the caller has chosen.
///
/// The diagram works in the store, which has the rows of the parts afterwards; at a fault, of the
/// parts in the records before it. The states of a record are put into the room first, and the
/// room is free afterwards.
///
/// Faults, in this order: a store that is too short; the number of records; then record by record
/// its letter, its body, its values, and what the diagram refuses; and bytes after the last one.
pub fn read<'a, P: Performance + FilePerformance, W: Weight + FileWeight>(
    bytes: &'a [u8],
    store: &mut [Term<P, W>],
    room: &mut [Term<P, W>; ROOM],
) -> Result<ModelFile<'a, P, W>, Fault>
    ensures read { ReadInto P.Performance W.Weight P.FilePerformance W.FileWeight
        bytes.now store.old result store.new }
    ensures left { LeftByReading P.Performance W.Weight P.FilePerformance W.FileWeight
        bytes.now store.old store.new }
    ensures reads_back { ReadsBack P.Performance W.Weight P.FilePerformance W.FileWeight }
    ensures reads_one_way { ReadsOneWay P.Performance W.Weight P.FilePerformance W.FileWeight }
{
    reads_what_is_written::<P, W>();
    read_contents(bytes, store, room)
}

// A file is read as exactly the contents that it writes.
fn reads_what_is_written<P: Performance + FilePerformance, W: Weight + FileWeight>()
    ensures reads_back { ReadsBack P.Performance W.Weight P.FilePerformance W.FileWeight }
    ensures reads_one_way { ReadsOneWay P.Performance W.Weight P.FilePerformance W.FileWeight }
{}

fn read_contents<'a, P: Performance + FilePerformance, W: Weight + FileWeight>(
    bytes: &'a [u8],
    store: &mut [Term<P, W>],
    room: &mut [Term<P, W>; ROOM],
) -> Result<ModelFile<'a, P, W>, Fault>
    ensures read { ReadInto P.Performance W.Weight P.FilePerformance W.FileWeight
        bytes.now store.old result store.new }
    ensures left { LeftByReading P.Performance W.Weight P.FilePerformance W.FileWeight
        bytes.now store.old store.new }
{
    let mut diagram = Diagram::new(store).map_err(|refusal| Fault::Refused(NO_RECORD, refusal))?;
    let [count, records @ ..] = bytes else {
        return Err(Fault::Records);
    };
    if !may_be_records(usize::from(*count)) {
        return Err(Fault::Records);
    }
    let nodes = *count - 1;
    let last = draw_nodes(nodes, records, &mut diagram, store, room)?;
    let demands = Demands::read(nodes, last)?;
    Ok(ModelFile {
        diagram,
        nodes,
        demands,
    })
}

// May a file have so many records?
fn may_be_records(n: usize) -> bool
    ensures { IsTrue result ↔ MayBeRecords n }
{
    (FEWEST_RECORDS..=RECORDS).contains(&n)
}
