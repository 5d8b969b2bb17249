//! A model file that was read.
ghost use Rattle.std.specs.Prelude.{IfSome, IfNone};
ghost use Rattle.files.specs.Contents.{DemandAt, NoDemandAt};

use crate::demands::Demands;
use crate::words::FilePerformance;
use diagram::diagram::Diagram;

/// What reading makes of a model file.
#[derive(Drop)]
pub struct ModelFile<'a, P, W> {
    /// The file's nodes; the joined ones are not collected yet.
    pub diagram: Diagram<P, W>,
    /// How many nodes there are.
    pub nodes: u8,
    /// What is asked of the last node.
    pub demands: Demands<'a, P>,
}

impl<P: FilePerformance, W> ModelFile<'_, P, W> {
    /// Demand i, from 0, or None past the last.
    pub fn demand(&self, i: usize) -> Option<P>
        ensures some { IfSome result (DemandAt P.FilePerformance self.now.demands.bytes.now i) }
        ensures none { IfNone result (NoDemandAt P.FilePerformance self.now.demands.bytes.now i) }
    {
        self.demands.get(i)
    }
}
