//! How the sequences write a performance: as two words, like a model file.
ghost use Rattle.std.specs.Prelude.{◌≡◌, ℕ, ◌↔◌, IsSome, IfSome};
ghost use Rattle.calls.specs.Written.{number_words, AreNumber, grade_words, AreGrade};
ghost use Rattle.calls.specs.Written.{number_or_out_words, AreNumberOrOut};

use crate::grade::Grade;
use kinds::values::OrOut;
use kinds::word::Word;

/// A performance that two words of 32 bits write, as a sequence has them.
pub trait Written: Copy {
    // the words that write a performance.
    ghost words: { Self → ℕ × ℕ };

    // that two words write one
    ghost AreWords: { ℕ → ℕ → Type 0 };

    /// The performance that two words write, or None where they write none.
    fn of_words(high: u32, low: u32) -> Option<Self>
        ensures found { IfSome result (λ v. words v ≡ (high, low)) }
        ensures known { IsSome result ↔ AreWords high low };

    /// The words that write the performance, the higher first.
    fn words(self) -> (u32, u32)
        ensures { result ≡ words self };
}

impl<Of> Written for Word<Of> {
    ghost words = { number_words };

    ghost AreWords = { AreNumber };

    fn of_words(high: u32, low: u32) -> Option<Self> {
        (high == 0).then_some(Word::new(low))
    }

    fn words(self) -> (u32, u32) {
        (0, self.number())
    }
}

impl<Of> Written for OrOut<Word<Of>> {
    ghost words = { number_or_out_words };

    ghost AreWords = { AreNumberOrOut };

    fn of_words(high: u32, low: u32) -> Option<Self> {
        match (high, low) {
            (0, _) => Some(OrOut::Working(Word::new(low))),
            (1, 0) => Some(OrOut::Out),
            _ => None,
        }
    }

    fn words(self) -> (u32, u32) {
        match self {
            OrOut::Out => (1, 0),
            OrOut::Working(value) => (0, value.number()),
        }
    }
}

impl Written for Grade {
    ghost words = { grade_words };

    ghost AreWords = { AreGrade };

    fn of_words(high: u32, low: u32) -> Option<Grade> {
        if high > 0 || low > 9 {
            return None;
        }
        Some(Grade { number: low as u8 })
    }

    fn words(self) -> (u32, u32) {
        (0, u32::from(self.number))
    }
}
