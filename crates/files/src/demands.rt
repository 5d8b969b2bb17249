//! The demands of a file: its last record.
ghost use Rattle.std.specs.Prelude.{◌↔◌, ◌*◌, ◌≤◌, IsTrue, length, IfSome, IfNone};
ghost use Rattle.files.specs.Reading.{MayBeDemands};
ghost use Rattle.files.specs.Contents.{performance_bytes, DemandAt, NoDemandAt};
ghost use Rattle.files.specs.Analysing.{DemandsRead, ManyAhead};

use crate::fault::Fault;
use crate::front::performance;
use crate::limits::{DEMAND_BYTES, DEMANDS};
use crate::words::FilePerformance;
use std::marker::PhantomData;

/// The demands of a file, as its last record writes them: each in DEMAND_BYTES bytes.
#[derive(Drop)]
pub struct Demands<'a, P> {
    bytes: &'a [u8],
    of: PhantomData<P>,
}

impl<'a, P: FilePerformance> Demands<'a, P> {
    /// Demand i, from 0, or None past the last.
    pub fn get(&self, i: usize) -> Option<P>
        ensures some { IfSome result (DemandAt P.FilePerformance self.now.bytes.now i) }
        ensures none { IfNone result (NoDemandAt P.FilePerformance self.now.bytes.now i) }
    {
        if i >= self.bytes.len() / DEMAND_BYTES {
            return None;
        }
        let (demand, _) = performance(&self.bytes[DEMAND_BYTES * i..])?;
        Some(demand)
    }

    /// The demands that end the file; k is the number of their record.
    pub(crate) fn read(k: u8, bytes: &'a [u8]) -> Result<Self, Fault>
        ensures { DemandsRead P.FilePerformance k bytes.now result }
    {
        let [letter, count, body @ ..] = bytes else {
            return Err(Fault::Letter(k));
        };
        if *letter != b'Q' {
            return Err(Fault::Letter(k));
        }
        let count = usize::from(*count);
        if !may_be_demands(count) || body.len() < DEMAND_BYTES * count {
            return Err(Fault::Body(k));
        }
        let demands = Demands {
            bytes: body,
            of: PhantomData,
        };
        if !demands.begin_with(count) {
            return Err(Fault::Value(k));
        }
        if body.len() > DEMAND_BYTES * count {
            return Err(Fault::LeftOver);
        }
        Ok(demands)
    }

    // Are the first ones, so many, all there?
    fn begin_with(&self, count: usize) -> bool
        requires { DEMAND_BYTES * count ≤ length self.now.bytes.now }
        ensures { IsTrue result
            ↔ ManyAhead (performance_bytes P.FilePerformance) count self.now.bytes.now }
    {
        for i in 0..count {
            let Some(_) = self.get(i) else {
                return false;
            };
        }
        true
    }
}

// May a file have so many demands?
fn may_be_demands(n: usize) -> bool
    ensures { IsTrue result ↔ MayBeDemands n }
{
    (1..=DEMANDS).contains(&n)
}
