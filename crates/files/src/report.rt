//! The report on a node.
ghost use Rattle.std.specs.Prelude.{◌+◌, ◌*◌, ◌≤◌, IfOk};
ghost use Rattle.files.specs.Analysing.{NodeReported, NeedsWritten, NeedWritten, TermsWritten};

use crate::demands::Demands;
use crate::fault::Fault;
use crate::limits::{DEMANDS, LONGEST_REPORT, NEED_LINE, TERM_LINE};
use crate::page::Page;
use crate::words::{FilePerformance, FileWeight};
use diagram::diagram::Diagram;
use diagram::limits::TERMS;
use kinds::performance::Performance;
use kinds::weight::Weight;
use terms::term::Term;

// Puts the report on node k first in the output, and answers its length.
pub(crate) fn report<P: Performance + FilePerformance, W: Weight + FileWeight>(
    diagram: &Diagram<P, W>,
    store: &[Term<P, W>],
    k: u8,
    demands: &Demands<P>,
    output: &mut [u8],
) -> Result<usize, Fault>
    ensures short { IfOk result (λ n. n ≤ LONGEST_REPORT) }
    ensures reported { NodeReported P.Performance W.Weight P.FilePerformance W.FileWeight
        diagram.now store.now k demands.now.bytes.now output.old result output.new }
{
    let mut page = Page::new();
    needs(diagram, store, k, demands, &mut page)?;
    terms(diagram, store, k, &mut page)?;
    page.copy_to(output).ok_or(Fault::Room)
}

// A line for each demand.
fn needs<P: Performance + FilePerformance, W: Weight + FileWeight>(
    diagram: &Diagram<P, W>,
    store: &[Term<P, W>],
    k: u8,
    demands: &Demands<P>,
    page: &mut Page,
) -> Result<(), Fault>
    requires { page.now.len + NEED_LINE * DEMANDS ≤ LONGEST_REPORT }
    ensures wrote { NeedsWritten P.Performance W.Weight P.FilePerformance W.FileWeight
        diagram.now store.now k demands.now.bytes.now page.old result page.new }
    ensures short { page.new.len ≤ page.old.len + NEED_LINE * DEMANDS }
{
    for i in 0..DEMANDS {
        let Some(demand) = demands.get(i) else {
            return Ok(());
        };
        need(diagram, store, k, demand, page)?;
    }
    Ok(())
}

// The line of one demand.
fn need<P: Performance + FilePerformance, W: Weight + FileWeight>(
    diagram: &Diagram<P, W>,
    store: &[Term<P, W>],
    k: u8,
    demand: P,
    page: &mut Page,
) -> Result<(), Fault>
    requires { page.now.len + NEED_LINE ≤ LONGEST_REPORT }
    ensures wrote { NeedWritten P.Performance W.Weight P.FilePerformance W.FileWeight
        diagram.now store.now k demand page.old result page.new }
    ensures short { page.new.len ≤ page.old.len + NEED_LINE }
{
    let (met, all) = diagram
        .availability(store, usize::from(k), demand)
        .map_err(|refusal| Fault::Refused(k, refusal))?;
    page.need(demand.high(), demand.low(), met.word(), all.word());
    Ok(())
}

// A line for each term, of which a row has TERMS at most.
fn terms<P: Performance + FilePerformance, W: Weight + FileWeight>(
    diagram: &Diagram<P, W>,
    store: &[Term<P, W>],
    k: u8,
    page: &mut Page,
) -> Result<(), Fault>
    requires { page.now.len + TERM_LINE * TERMS ≤ LONGEST_REPORT }
    ensures wrote { TermsWritten P.Performance W.Weight P.FilePerformance W.FileWeight
        diagram.now store.now k page.old result page.new }
    ensures short { page.new.len ≤ page.old.len + TERM_LINE * TERMS }
{
    let size = diagram
        .size(store, usize::from(k))
        .map_err(|refusal| Fault::Refused(k, refusal))?;
    for i in 0..size {
        let t = diagram
            .term(store, usize::from(k), i)
            .map_err(|refusal| Fault::Refused(k, refusal))?;
        page.term(t.performance.high(), t.performance.low(), t.weight.word());
    }
    Ok(())
}
