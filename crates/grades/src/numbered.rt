//! Grades and states by their numbers.
ghost use Rattle.std.specs.Prelude.{◌≡◌, IfOk};
ghost use Rattle.grades.specs.BatchesWeight.{how_many};
ghost use Rattle.grades.specs.GradeKind.{grade_number};

use crate::batches::Batches;
use crate::grade::Grade;
use crate::share::State;
use anyhow::bail;
use terms::term::Term;

/// The grade with this number. That there is no such grade becomes an error of the program.
pub fn grade_numbered(number: u8) -> anyhow::Result<Grade>
    ensures { IfOk result (λ g. grade_number g ≡ number) }
{
    match Grade::new(number) {
        Some(grade) => Ok(grade),
        None => bail!("there is no grade {number}"),
    }
}

/// So many batches of the grade with this number; an error, if there is no such grade.
pub fn state(number: u8, count: u16) -> anyhow::Result<State>
    ensures { IfOk result (λ s.
        (grade_number s.performance ≡ number) × (how_many s.weight ≡ count)) }
{
    Ok(Term {
        performance: grade_numbered(number)?,
        weight: Batches::new(count),
    })
}
