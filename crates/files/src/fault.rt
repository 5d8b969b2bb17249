//! Why there is no report.
ghost use Rattle.std.specs.Prelude.{◌≡◌, Some, pos, neg_ℤ};
ghost use Rattle.files.specs.Faults.{layer_of, record_of, fault_number_of, packed, fault_text};

use crate::limits::NO_RECORD;
use diagram::refusal::Refusal;
use std::fmt;

/// The first question that was answered no; where a record is at fault, its number, from 0.
#[derive(Clone, Copy, PartialEq, Eq, Debug)]
pub enum Fault {
    /// 21: Is the first byte there, and does it name a model?
    Model,
    /// 22: Is the second byte there, and does it say FEWEST_RECORDS to RECORDS?
    Records,
    /// 23: Are two bytes left, with a right letter for the place?
    Letter(u8),
    /// 24: May the count be, and is the body all there?
    Body(u8),
    /// 26: Can the model hold each performance, weight and demand?
    Value(u8),
    /// 25: Is the file at its end?
    LeftOver,
    /// The number of the refusal: What the diagram refused, of a record or in collecting its node;
    /// NO_RECORD where a lent store is too short.
    Refused(u8, Refusal),
    /// 27: Has the output room for the report?
    Room,
}

impl Fault {
    /// 1 for the file, 2 for the diagram, 3 for the report.
    pub fn layer(self) -> u8
        ensures { result ≡ layer_of self }
    {
        match self {
            Fault::Model
            | Fault::Records
            | Fault::Letter(_)
            | Fault::Body(_)
            | Fault::Value(_)
            | Fault::LeftOver => 1,
            Fault::Refused(_, _) => 2,
            Fault::Room => 3,
        }
    }

    /// The record at fault, or NO_RECORD.
    pub fn record(self) -> u8
        ensures { result ≡ record_of self }
    {
        match self {
            Fault::Letter(k) | Fault::Body(k) | Fault::Value(k) | Fault::Refused(k, _) => k,
            Fault::Model | Fault::Records | Fault::LeftOver | Fault::Room => NO_RECORD,
        }
    }

    /// The number by which a host knows the question.
    pub fn number(self) -> u8
        ensures { result ≡ fault_number_of self }
    {
        match self {
            Fault::Model => 21,
            Fault::Records => 22,
            Fault::Letter(_) => 23,
            Fault::Body(_) => 24,
            Fault::LeftOver => 25,
            Fault::Value(_) => 26,
            Fault::Refused(_, refusal) => refusal.number(),
            Fault::Room => 27,
        }
    }

    /// Layer, record and number in one negative number, for C: minus 65536 times the layer, 256
    /// times the record, and the number.
    pub fn packed(self) -> i64
        ensures { result ≡ neg_ℤ (pos (packed self)) }
    {
        let record = u32::from(self.record());
        let number = u32::from(self.number());
        -i64::from(u32::from(self.layer()) * 65536 + record * 256 + number)
    }
}

impl fmt::Display for Fault {
    ghost output = { λ f. Some (fault_text f) };

    fn fmt<W: fmt::Write>(&self, f: &mut fmt::Formatter<W>) -> fmt::Result {
        let layer = self.layer();
        let record = self.record();
        let number = self.number();
        write!(f, "fault {layer} {record} {number}")
    }
}
