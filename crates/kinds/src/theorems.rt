//! Theorems about the definitions, each the contract of a function.
ghost use Rattle.kinds.specs.CapLaws.{CappingKeeps};
ghost use Rattle.kinds.specs.Capped.{top32};
ghost use Rattle.kinds.specs.Counting.{CountsTo};
ghost use Rattle.kinds.specs.Holding.{Numbers32};
ghost use Rattle.kinds.specs.BitSets.{MeetsIsWithin, UnionHas, IntersectionHas};
ghost use Rattle.kinds.specs.Words.{number};

use crate::values::Parts;
use crate::weight::Weight;

/// What capped sums and products keep of the laws of numbers, for any top.
pub fn capping_keeps_laws()
    ensures { CappingKeeps }
{}

/// Parts are told by their numbers, and count up to the top.
#[tactic(auto, using(crate::proofs::PartsLaws::parts_count))]
pub fn parts_count_to_the_top()
    ensures { CountsTo top32 ⟦<Parts as Weight>⟧ number }
{}

/// The values of each named kind and weight are the numbers of 32 bits, every one and no other.
#[tactic(auto, using(crate::specs::WordLaws::word_numbers))]
pub fn words_hold_32_bits<Of>()
    ensures { Numbers32 (number {Of = Of}) }
{}

/// Sets bit by bit: what a union and an intersection hold, and that a fault set meets a demand
/// exactly where it has no class outside it.
pub fn bits_are_members()
    ensures union { UnionHas }
    ensures intersection { IntersectionHas }
    ensures within { MeetsIsWithin }
{}
