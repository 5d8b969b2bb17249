//! The words of the named kinds and weights.
ghost use Rattle.kinds.specs.Words.{number};
ghost use Rattle.kinds.specs.WordLaws.{word_same};
ghost use Rattle.files.specs.OutWords.{out_high, out_low};
ghost use Rattle.files.specs.WordLaws.{word_fits, one_word_fits, one_word_tells};
ghost use Rattle.files.specs.WordLaws.{out_fits, out_tells, pair_fits, pair_tells};

use crate::words::{FilePerformance, FileWeight};
use kinds::values::{OrOut, Pair};
use kinds::word::Word;

// A kind of one word has the first word 0.
impl<Of> FilePerformance for Word<Of> {
    ghost high = { λ _. 0 };

    ghost low = { number };

    ghost words_fit = { one_word_fits };

    ghost words_tell = { one_word_tells };

    fn of_words(first: u32, second: u32) -> Option<Self> {
        if first == 0 {
            Some(Word::new(second))
        } else {
            None
        }
    }

    fn high(self) -> u32 {
        0
    }

    fn low(self) -> u32 {
        self.number()
    }
}

// The first of a pair, then the second.
impl<A, B> FilePerformance for Pair<Word<A>, Word<B>> {
    ghost high = { λ v. number v.first };

    ghost low = { λ v. number v.second };

    ghost words_fit = { pair_fits };

    ghost words_tell = { pair_tells };

    fn of_words(first: u32, second: u32) -> Option<Self> {
        Some(Pair {
            first: Word::new(first),
            second: Word::new(second),
        })
    }

    fn high(self) -> u32 {
        self.first.number()
    }

    fn low(self) -> u32 {
        self.second.number()
    }
}

// 0 and the number, or 1 and 0 for out.
impl<Of> FilePerformance for OrOut<Word<Of>> {
    ghost high = { out_high };

    ghost low = { out_low };

    ghost words_fit = { out_fits };

    ghost words_tell = { out_tells };

    fn of_words(first: u32, second: u32) -> Option<Self> {
        match (first, second) {
            (0, number) => Some(OrOut::Working(Word::new(number))),
            (1, 0) => Some(OrOut::Out),
            _ => None,
        }
    }

    fn high(self) -> u32 {
        match self {
            OrOut::Out => 1,
            OrOut::Working(_) => 0,
        }
    }

    fn low(self) -> u32 {
        match self {
            OrOut::Out => 0,
            OrOut::Working(value) => value.number(),
        }
    }
}

impl<Of> FileWeight for Word<Of> {
    ghost word = { number };

    ghost word_fits = { word_fits };

    ghost word_tells = { word_same };

    fn of_word(written: u64) -> Option<Self> {
        match u32::try_from(written) {
            Ok(number) => Some(Word::new(number)),
            Err(_) => None,
        }
    }

    fn word(self) -> u32 {
        self.number()
    }
}
