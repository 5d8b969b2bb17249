//! The lines that the program prints.
ghost use Rattle.std.specs.Prelude.{◌≡◌, ◌++◌, Some, IfOk};
ghost use Rattle.diagram.specs.Shown.{records};
ghost use Rattle.worked.specs.Lines.{row_text, need_text};

use diagram::diagram::Diagram;
use diagram::refusal::Refusal;
use kinds::values::{Flow, Parts};
use std::fmt;
use terms::term::Term;

/// A row after its name.
#[derive(Drop)]
pub struct Line<'a> {
    name: &'a str,
    row: &'a [Term<Flow, Parts>],
}

impl<'a> Line<'a> {
    /// The line of this row.
    pub fn new(name: &'a str, row: &'a [Term<Flow, Parts>]) -> Line<'a>
        ensures name { result.name.now ≡ name.now }
        ensures row { result.row.now ≡ row.now }
    {
        Line { name, row }
    }
}

impl fmt::Display for Line<'_> {
    ghost output = { λ l. Some (l.name.now ++ row_text l.row.now) };

    fn fmt<W: fmt::Write>(&self, f: &mut fmt::Formatter<W>) -> fmt::Result {
        f.write_str(self.name)?;
        for t in self.row {
            write!(f, " {t}")?;
        }
        Ok(())
    }
}

/// What of a node's row meets a demand, in parts of the whole.
#[derive(Clone, Copy, PartialEq, Eq)]
pub struct Need {
    demand: Flow,
    met: Parts,
    all: Parts,
}

impl Need {
    ghost use Rattle.worked.specs.Answering.{IsMet, IsTotal, HasText, NeedOrRefusal};

    /// What of node k meets this demand, as the diagram answers. It is refused as a question about
    /// the node is.
    pub fn of(
        demand: Flow,
        diagram: &Diagram<Flow, Parts>,
        store: &[Term<Flow, Parts>],
        k: usize,
    ) -> Result<Need, Refusal>
        ensures demand { IfOk result (λ n. n.demand ≡ demand) }
        ensures met { IfOk result (IsMet (records diagram.now) store.now k demand) }
        ensures all { IfOk result (IsTotal (records diagram.now) store.now k) }
        ensures text { IfOk result (HasText (records diagram.now) store.now k demand) }
        ensures refusals { NeedOrRefusal (records diagram.now) store.now k demand result }
    {
        let (met, all) = diagram.availability(store, k, demand)?;
        Ok(Need { demand, met, all })
    }
}

impl fmt::Display for Need {
    ghost output = { λ n. Some (need_text n.demand n.met n.all) };

    fn fmt<W: fmt::Write>(&self, f: &mut fmt::Formatter<W>) -> fmt::Result {
        let rate = self.demand;
        let met = self.met;
        let all = self.all;
        write!(f, "a need of {rate} is met by {met} of {all} parts")
    }
}
