//! Performances and weights as words of a model file.
ghost use Rattle.std.specs.Prelude.{◌≡◌, ℕ, ◌^◌, ◌<◌};
ghost use Rattle.files.specs.Finding.{Found};

/// A performance as two words of 32 bits, by which it is known.
pub trait FilePerformance: Copy {
    ghost high: { Self → ℕ };

    ghost low: { Self → ℕ };

    /// The performance that these words write, if there is one.
    fn of_words(first: u32, second: u32) -> Option<Self>
        ensures { Found (λ v. (high v ≡ first) × (low v ≡ second)) result };

    /// The first word.
    fn high(self) -> u32
        ensures { result ≡ high self };

    /// The second word.
    fn low(self) -> u32
        ensures { result ≡ low self };

    ghost words_fit: { (v : Self) → (high v < 2 ^ 32) × (low v < 2 ^ 32) };

    ghost words_tell: { (v w : Self) → high v ≡ high w → low v ≡ low w → v ≡ w };
}

/// A weight as one word, which is written in eight bytes but has 32 bits.
pub trait FileWeight: Copy {
    ghost word: { Self → ℕ };

    /// The weight that this word writes, if there is one.
    fn of_word(written: u64) -> Option<Self>
        ensures { Found (λ w. word w ≡ written) result };

    /// The word that writes the weight.
    fn word(self) -> u32
        ensures { result ≡ word self };

    ghost word_fits: { (w : Self) → word w < 2 ^ 32 };

    ghost word_tells: { (v w : Self) → word v ≡ word w → v ≡ w };
}
