//! Grades and batches as words of a model file.
ghost use Rattle.grades.specs.GradeKind.{grade_number};
ghost use Rattle.grades.specs.GradeLaws.{grade_same};
ghost use Rattle.grades.specs.BatchesWeight.{how_many};
ghost use Rattle.grades.specs.BatchesLaws.{batches_same};
ghost use Rattle.std.proofs.Common.{rules};

use crate::batches::Batches;
use crate::grade::Grade;
use files::words::{FilePerformance, FileWeight};

// The first word is 0, the second is the grade's number.
impl FilePerformance for Grade {
    ghost high = { λ _. 0 };

    ghost low = { grade_number };

    ghost words_fit = { Prim.search rules };

    ghost words_tell = { λ a b _ same. grade_same a b same };

    fn of_words(first: u32, second: u32) -> Option<Grade> {
        if first != 0 {
            return None;
        }
        match u8::try_from(second) {
            Ok(number) => Grade::new(number),
            Err(_) => None,
        }
    }

    fn high(self) -> u32 {
        0
    }

    fn low(self) -> u32 {
        u32::from(self.number())
    }
}

impl FileWeight for Batches {
    ghost word = { how_many };

    ghost word_fits = { Prim.search rules };

    ghost word_tells = { batches_same };

    fn of_word(written: u64) -> Option<Batches> {
        match u16::try_from(written) {
            Ok(count) => Some(Batches::new(count)),
            Err(_) => None,
        }
    }

    fn word(self) -> u32 {
        u32::from(self.number())
    }
}
