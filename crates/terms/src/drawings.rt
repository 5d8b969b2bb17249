//! What holds of drawings, their combinations and their readings, for every lawful kind and
//! weight; each theorem is the contract of a function.
ghost use Rattle.terms.specs.EnumerationLaws.{BeneathOnce, EveryCombination, NothingElse};
ghost use Rattle.terms.specs.EnumerationLaws.{RunningOfThree};
ghost use Rattle.terms.specs.EnumerationLaws.{AsManyAsPicks, OnePartOnly, PickedOnce};
ghost use Rattle.terms.specs.EnumerationLaws.{OfPart, OfOne, OfMore, OfBridge, OnlyPartsBeneath};
ghost use Rattle.terms.specs.EnumerationLaws.{StepsFindTheRow, StepsFindRunningResults};
ghost use Rattle.terms.specs.ReadingLaws.{PartReads, BridgeReads, OnlyPartsRead, FormsDiffer};
ghost use Rattle.terms.specs.ReadingLaws.{SameByReading, RowByReading, Regrouped, Dissolved};
ghost use Rattle.terms.specs.ReadingLaws.{TotalByReading, MetByReading, Reflexive, Symmetric};
ghost use Rattle.terms.specs.ReadingLaws.{InAnyOrder, OrderMatters, Transitive, Replaceable};

use kinds::performance::Performance;
use kinds::weight::Weight;

/// The enumeration of a drawing lists every combination, no other, and each once.
///
/// A part is picked once and counts once, at however many places it stands.
pub fn every_combination_is_listed_once<P: Performance, W: Weight>()
    ensures beneath { BeneathOnce }
    ensures every { EveryCombination P.Performance W.Weight }
    ensures no_other { NothingElse P.Performance W.Weight }
    ensures as_many { AsManyAsPicks P.Performance W.Weight }
    ensures one_part_only { OnePartOnly P.Performance W.Weight }
    ensures picked_once { PickedOnce P.Performance W.Weight }
{}

/// Where no part stands twice, the combinations of a drawing are those of its children combined,
/// from the left, or of its five arms.
pub fn combinations_go_child_by_child<P: Performance, W: Weight>()
    ensures of_part { OfPart P.Performance W.Weight }
    ensures of_one { OfOne P.Performance W.Weight }
    ensures of_more { OfMore P.Performance W.Weight }
    ensures of_bridge { OfBridge P.Performance W.Weight }
{}

/// Where no part stands twice, working with rows alone, step by step, finds the row of all the
/// combinations.
///
/// The running results are what is so worked out on the way.
pub fn steps_find_the_row<P: Performance, W: Weight>()
    ensures row { StepsFindTheRow P.Performance W.Weight }
    ensures running { StepsFindRunningResults P.Performance W.Weight }
    ensures of_three { RunningOfThree }
{}

/// States of parts that are not beneath a drawing do not matter to it.
pub fn only_parts_beneath_matter<P: Performance, W: Weight>()
    ensures combinations { OnlyPartsBeneath P.Performance W.Weight }
    ensures reading { OnlyPartsRead P.Performance W.Weight }
{}

/// Drawings that read the same have the same distribution, the same row and the same sums.
pub fn readings_decide<P: Performance, W: Weight>()
    ensures distribution { SameByReading P.Performance W.Weight }
    ensures row { RowByReading P.Performance W.Weight }
    ensures total { TotalByReading P.Performance W.Weight }
    ensures met { MetByReading P.Performance W.Weight }
{}

/// A part reads as its distribution, a bridge as its five arms.
pub fn parts_and_bridges_read_as_told<P: Performance, W: Weight>()
    ensures part { PartReads P.Performance W.Weight }
    ensures bridge { BridgeReads P.Performance W.Weight }
{}

/// Regrouped children read the same, and so do children in another order where order does not
/// count; drawings of different form never do.
pub fn redrawn_plants_read_the_same<P: Performance, W: Weight>()
    ensures regrouped { Regrouped P.Performance W.Weight }
    ensures dissolved { Dissolved P.Performance W.Weight }
    ensures in_any_order { InAnyOrder P.Performance W.Weight }
    ensures order_matters { OrderMatters P.Performance W.Weight }
    ensures forms_differ { FormsDiffer P.Performance W.Weight }
{}

/// Reading the same is an equivalence, and what reads the same may stand for each other within a
/// drawing.
pub fn reading_the_same_is_an_equivalence<P: Performance, W: Weight>()
    ensures reflexive { Reflexive P.Performance W.Weight }
    ensures symmetric { Symmetric P.Performance W.Weight }
    ensures transitive { Transitive P.Performance W.Weight }
    ensures replaceable { Replaceable P.Performance W.Weight }
{}
