//! The quality grade of a product.
ghost use Rattle.std.specs.Prelude.{◌≡◌, ◌≤◌, Some, decimal};

use std::fmt;

/// The quality grade of a product: a digit, of which 9 is the best.
#[derive(Clone, Copy, PartialEq, Eq, PartialOrd, Ord, Debug)]
pub struct Grade {
    digit: u8,
    ghost fits: { digit ≤ 9 },
}

impl fmt::Display for Grade {
    ghost output = { λ g. Some (decimal g.digit) };

    fn fmt<W: fmt::Write>(&self, f: &mut fmt::Formatter<W>) -> fmt::Result {
        write!(f, "{}", self.digit)
    }
}

impl Grade {
    ghost use Rattle.files.specs.Finding.{Found};
    ghost use Rattle.grades.specs.GradeKind.{grade_number, lower, higher};
    ghost use Rattle.kinds.specs.Holding.{Holds};

    /// The grade with this number, if there is one.
    pub fn new(number: u8) -> Option<Grade>
        ensures { Found (λ g. grade_number g ≡ number) result }
    {
        if number <= 9 {
            Some(Grade::of(number))
        } else {
            None
        }
    }

    // The one place where a grade is made.
    fn of(digit: u8) -> Grade
        requires { digit ≤ 9 }
        ensures { Holds grade_number digit result }
    {
        Grade { digit }
    }

    /// Its digit.
    pub fn number(self) -> u8
        ensures { result ≡ grade_number self }
    {
        self.digit
    }

    /// The lower of two grades.
    pub fn lower(self, other: Grade) -> Grade
        ensures { result ≡ lower self other }
    {
        Grade::of(self.digit.min(other.digit))
    }

    /// The higher of two grades.
    pub fn higher(self, other: Grade) -> Grade
        ensures { result ≡ higher self other }
    {
        Grade::of(self.digit.max(other.digit))
    }
}
