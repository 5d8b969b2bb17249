//! The records that make nodes, one after the other.
ghost use Rattle.std.specs.Prelude.{Ok};
ghost use Rattle.diagram.specs.Calls.{Made};
ghost use Rattle.diagram.specs.Runs.{AnswersRight};
ghost use Rattle.diagram.specs.Shown.{records};
ghost use Rattle.files.specs.Analysing.{NodesDrawn};

use crate::fault::Fault;
use crate::limits::ROOM;
use crate::record::making;
use crate::words::{FilePerformance, FileWeight};
use diagram::diagram::Diagram;
use kinds::performance::Performance;
use kinds::weight::Weight;
use terms::term::Term;

/// Gives so many records to a diagram without nodes, and answers what follows them.
pub(crate) fn draw_nodes<'a, P: Performance + FilePerformance, W: Weight + FileWeight>(
    n: u8,
    bytes: &'a [u8],
    diagram: &mut Diagram<P, W>,
    store: &mut [Term<P, W>],
    room: &mut [Term<P, W>; ROOM],
) -> Result<&'a [u8], Fault>
    requires made { Made records store.now (Ok diagram.now) }
    requires right { AnswersRight P.Performance W.Weight }
    ensures drawn { NodesDrawn P.Performance W.Weight P.FilePerformance W.FileWeight (λ x. x.now)
        store.old n bytes.now result diagram.new store.new }
{
    let mut children = [0; ROOM];
    let mut rest = bytes;
    for k in 0..n {
        let (making, after) = making(k, rest, room, &mut children)?;
        diagram
            .make(store, making)
            .map_err(|refusal| Fault::Refused(k, refusal))?;
        rest = after;
    }
    Ok(rest)
}
