//! A plant read from a model file of this kind.
ghost use Rattle.std.specs.Prelude.{◌≡◌, ◌<◌, IfOk};
ghost use Rattle.diagram.specs.Shown.{records};
ghost use Rattle.diagram.specs.Store.{Kept};
ghost use Rattle.grades.specs.Files.{IsModelFile, NodesCollected};

use crate::answers::{accepted, show};
use crate::batches::Batches;
use crate::grade::Grade;
use crate::numbered::{grade_numbered, state};
use crate::share::State;
use anyhow::{anyhow, bail};
use diagram::limits::STORE;
use files::limits::ROOM;
use files::model_file::ModelFile;
use files::read::read;

// The file, from the number of its records on: 300 batches of grade 3 and 200 of grade 8 in
// parallel with 100 of grade 6, then a step that makes 2 of grade 7, and grade 7 is asked for. A
// state is the word 0, the word of its grade, and eight bytes of batches.
#[rattlefmt::skip]
const FILE: [u8; 89] = [
    6,
    b'P', 2,
    0, 0, 0, 0, 0, 0, 0, 3, 0, 0, 0, 0, 0, 0, 1, 44,
    0, 0, 0, 0, 0, 0, 0, 8, 0, 0, 0, 0, 0, 0, 0, 200,
    b'P', 1,
    0, 0, 0, 0, 0, 0, 0, 6, 0, 0, 0, 0, 0, 0, 0, 100,
    b'L', 2, 0, 1,
    b'P', 1,
    0, 0, 0, 0, 0, 0, 0, 7, 0, 0, 0, 0, 0, 0, 0, 2,
    b'S', 2, 2, 3,
    b'Q', 1,
    0, 0, 0, 0, 0, 0, 0, 7,
];

// Where the first grade stands in the file.
const FIRST_GRADE: usize = 10;

pub(crate) fn by_file(rt: &HostRuntime) -> anyhow::Result<()> {
    rt.println("From a file:")?;
    show_file(rt, &FILE)?;
    let mut damaged = FILE;
    damaged[FIRST_GRADE] = 10;
    let mut store = [state(0, 0)?; STORE];
    let mut room = [state(0, 0)?; ROOM];
    match read::<Grade, Batches>(&damaged, &mut store, &mut room) {
        Ok(_) => bail!("a file with a grade of 10 was read"),
        Err(fault) => println!(rt; "With a grade of 10 in it: {fault}")?,
    }
    Ok(())
}

// Prints what the last node of the file tells.
fn show_file(rt: &HostRuntime, bytes: &[u8]) -> anyhow::Result<()>
    ensures { IfOk result (λ _. IsModelFile bytes.now) }
{
    let mut store = [state(0, 0)?; STORE];
    let mut room = [state(0, 0)?; ROOM];
    let mut model = read::<Grade, Batches>(bytes, &mut store, &mut room).map_err(|fault| anyhow!(
        "{fault}"
    ))?;
    collect_all(&mut model, &mut store)?;
    let last = usize::from(model.nodes.saturating_sub(1));
    show(rt, &model.diagram, &store, last, grade_numbered(7)?)
}

// Works out the joined nodes, by rising number.
fn collect_all(model: &mut ModelFile<Grade, Batches>, store: &mut [State]) -> anyhow::Result<()>
    ensures collected { IfOk result (λ _. NodesCollected model.old store.old model.new store.new) }
    ensures kept { Kept (λ k. k < (records model.old.diagram).count) store.old store.new }
    ensures nodes { model.new.nodes ≡ model.old.nodes }
    ensures demands { model.new.demands ≡ model.old.demands }
{
    accepted(model.diagram.collect_all(store).map_err(|at| at.refusal))
}
