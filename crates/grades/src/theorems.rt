//! Which values there are; each theorem is the contract of a function.
ghost use Rattle.grades.specs.BatchesWeight.{top16, how_many};
ghost use Rattle.grades.specs.GradeKind.{grade_number};
ghost use Rattle.kinds.specs.Counting.{CountsTo};
ghost use Rattle.kinds.specs.Holding.{NumbersTo};

use crate::batches::Batches;
use kinds::weight::Weight;

/// The grades are the numbers 0 to 9: every one of them, and no other.
pub fn grades_are_ten()
    ensures { NumbersTo 9 grade_number }
{}

/// Batches are the numbers of 16 bits: every one of them, and no other.
pub fn batches_have_16_bits()
    ensures { NumbersTo top16 how_many }
{}

/// Batches that show the same number are the same, and they count up to the top: so what is said
/// of stopped weights is said of them.
pub fn batches_count_to_the_top()
    ensures { CountsTo top16 ⟦<Batches as Weight>⟧ how_many }
{}
