//! Values worked by hand, as theorems about the definitions.
ghost use Rattle.worked.specs.Examples.{Examples, DrawnExamples, CountedExamples};
ghost use Rattle.worked.specs.Examples.{LongExamples, FileExamples};

/// Every worked value of kinds, weights and rows follows from the definitions.
pub fn examples_hold()
    ensures { Examples }
{}

/// Every worked value of drawings follows from the definitions.
pub fn drawn_examples_hold()
    ensures { DrawnExamples }
{}

/// Every worked value of counts that stop at a top follows from the definitions.
pub fn counted_examples_hold()
    ensures { CountedExamples }
{}

/// Every worked value of rows that are as long as may be, or longer, follows from the
/// definitions.
pub fn long_examples_hold()
    ensures { LongExamples }
{}

/// Every worked value of model files follows from the definitions.
pub fn file_examples_hold()
    ensures { FileExamples }
{}
