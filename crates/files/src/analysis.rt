//! A model file, analysed.
ghost use Rattle.std.specs.Prelude.{◌≤◌, IfOk};
ghost use Rattle.files.specs.Analyses.{AnalysedAs, AnalysedOver};
ghost use Rattle.files.specs.Counted.{TrueCounts};
ghost use Rattle.files.specs.StoreLeft.{LeftByAnalysing};
ghost use Rattle.files.specs.ByModel.{Analysed, ListedCounts};
ghost use Rattle.files.specs.Sizes.{StoreFits};

use crate::fault::Fault;
pub use crate::limits::LONGEST_REPORT;
use crate::limits::ROOM;
use crate::models::for_each_model;
use crate::read::read;
use crate::report::report;
use crate::theorems::reports_count_truly;
use crate::words::{FilePerformance, FileWeight};
use diagram::limits::STORE;
use kinds::performance::Performance;
use kinds::values;
use kinds::weight::Weight;
use terms::term::Term;

/// Reads a model file, works out its nodes, and puts the report on the last one first in the
/// output. Answers the report's length in bytes.
///
/// At a fault the output stays as it was. Faults, in this order: the first byte names no model;
/// then those of `analyse_as`.
pub fn analyse(model: &[u8], output: &mut [u8]) -> Result<usize, Fault>
    ensures analysed { Analysed model.now output.old result output.new }
    ensures counted { ListedCounts result output.new model.now }
    ensures short { IfOk result (λ n. n ≤ LONGEST_REPORT) }
{
    // What holds of each report that is analysed is said here.
    reports_count_truly();
    analyse_named(model, output)
}

// If this is the model that is named, the rest of the file is analysed as one of it.
macro_rules! analyse_if_named {
    (($named:ident, $rest:ident, $output:ident)
        $number:literal, $kind:ty, $weight:ty, $unused:expr) => {
        if $named == $number {
            return analyse_apart::<$kind, $weight>($unused, $rest, $output);
        }
    };
}

fn analyse_named(model: &[u8], output: &mut [u8]) -> Result<usize, Fault>
    ensures analysed { Analysed model.now output.old result output.new }
    ensures short { IfOk result (λ n. n ≤ LONGEST_REPORT) }
{
    let [named, rest @ ..] = model else {
        return Err(Fault::Model);
    };
    let named = *named;
    for_each_model!(analyse_if_named(named, rest, output));
    Err(Fault::Model)
}

/// Reads a model file of a kind and a weight of one's own from its second byte on, works out its
/// nodes, and puts the report on the last one first in the output. Answers the report's length in
/// bytes. At a fault the output stays as it was.
///
/// The diagram works in the store that is lent, which has the rows of the nodes afterwards; at a
/// fault, of those that were made and collected before it. The states of a record are put into the
/// room first, and the room is free afterwards.
///
/// Faults, in this order: those of `read`; what the diagram refuses in collecting a node; and no
/// room in the output for the report.
pub fn analyse_as<P: Performance + FilePerformance, W: Weight + FileWeight>(
    bytes: &[u8],
    store: &mut [Term<P, W>],
    room: &mut [Term<P, W>; ROOM],
    output: &mut [u8],
) -> Result<usize, Fault>
    ensures analysed { AnalysedOver P.Performance W.Weight P.FilePerformance W.FileWeight
        output.old result output.new store.old bytes.now }
    ensures counted { TrueCounts P.Performance W.Weight P.FilePerformance W.FileWeight
        bytes.now result output.new }
    ensures left { LeftByAnalysing P.Performance W.Weight P.FilePerformance W.FileWeight
        bytes.now store.old store.new }
    ensures short { IfOk result (λ n. n ≤ LONGEST_REPORT) }
{
    let mut model = read(bytes, store, room)?;
    let last = model.nodes - 1;
    model
        .diagram
        .collect_all(store)
        .map_err(|at| Fault::Refused(at.node as u8, at.refusal))?;
    report(&model.diagram, store, last, &model.demands, output)
}

// The same in arrays of its own, which begin with a term that is never looked at.
fn analyse_apart<P: Performance + FilePerformance, W: Weight + FileWeight>(
    unused: P,
    bytes: &[u8],
    output: &mut [u8],
) -> Result<usize, Fault>
    requires { StoreFits P.row W.row }
    ensures analysed { AnalysedAs P.Performance W.Weight P.FilePerformance W.FileWeight
        output.old result output.new bytes.now }
    ensures short { IfOk result (λ n. n ≤ LONGEST_REPORT) }
{
    let term = Term {
        performance: unused,
        weight: W::none(),
    };
    let mut store = [term; STORE];
    let mut room = [term; ROOM];
    analyse_as(bytes, &mut store, &mut room, output)
}
