//! A word of 32 bits, of which the named kinds and weights are made.
ghost use Rattle.std.specs.Prelude.{◌≡◌, ◌%◌, ◌^◌, ◌<◌, ⊤, Some, decimal};

use crate::capped::cap;
use std::alloc::AllocError;
use std::fmt;
use std::marker::PhantomData;

/// A word of 32 bits; `Of` tells what it is a word of.
///
/// Words of different things are different types.
#[derive_where(PartialEq, Eq, PartialOrd, Ord, Debug)]
#[derive(Drop)]
pub struct Word<Of> {
    bits: u32,
    of: PhantomData<Of>,
    ghost fits: { bits < 2 ^ 32 },
}

// By hand: a derive asks both of `Of`, and `derive_where` refuses them beside a ghost field.
impl<Of> Clone for Word<Of> {
    ghost is_clone = { λ x y. y ≡ x };

    ghost is_infallible = { λ _. ⊤ };

    fn clone(&self) -> Result<Self, AllocError> {
        Ok(*self)
    }
}

impl<Of> Copy for Word<Of> {}

impl<Of> fmt::Display for Word<Of> {
    ghost output = { λ v. Some (decimal v.bits) };

    fn fmt<W: fmt::Write>(&self, f: &mut fmt::Formatter<W>) -> fmt::Result {
        write!(f, "{}", self.bits)
    }
}

impl<Of> Word<Of> {
    ghost use Rattle.kinds.specs.Holding.{Holds};
    ghost use Rattle.kinds.specs.Words.{number, holds_number, smaller, word_sum, word_product};
    ghost use Rattle.kinds.specs.Words.{union, intersection};

    /// The word of a number. Each number has one, and no other way makes one.
    pub fn new(bits: u32) -> Word<Of>
        ensures { Holds number bits result }
    {
        Word {
            bits,
            of: PhantomData,
        }
    }

    /// The number that the word holds.
    pub fn number(self) -> u32
        ensures { result ≡ number self }
    {
        self.bits
    }

    pub(crate) fn is_zero(self) -> bool
        ensures { result ≡ holds_number 0 self }
    {
        self.number() == 0
    }

    pub(crate) fn low_byte(self) -> u8
        ensures { result ≡ self.bits % 256 }
    {
        (self.bits & 255) as u8
    }

    pub(crate) fn smaller(self, other: Word<Of>) -> Word<Of>
        ensures { result ≡ smaller self other }
    {
        Word::new(self.bits.min(other.bits))
    }

    pub(crate) fn capped_sum(self, other: Word<Of>) -> Word<Of>
        ensures { result ≡ word_sum self other }
    {
        Word::new(self.bits.saturating_add(other.bits))
    }

    pub(crate) fn capped_product(self, other: Word<Of>) -> Word<Of>
        ensures { result ≡ word_product self other }
    {
        // Not `saturating_mul`, which divides: bridges with parts take half as long again.
        Word::new(cap(self.bits as u64 * other.bits as u64))
    }

    pub(crate) fn union(self, other: Word<Of>) -> Word<Of>
        ensures { result ≡ union self other }
    {
        Word::new(self.bits | other.bits)
    }

    pub(crate) fn intersection(self, other: Word<Of>) -> Word<Of>
        ensures { result ≡ intersection self other }
    {
        Word::new(self.bits & other.bits)
    }
}
