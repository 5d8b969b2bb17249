//! How many batches.
ghost use Rattle.std.specs.Prelude.{◌≡◌, ◌≤◌, Some, decimal};

use std::fmt;

/// So many batches: a number of 16 bits, of which the largest says that many or more.
#[derive(Clone, Copy, PartialEq, Eq, Debug)]
pub struct Batches {
    count: u16,
    ghost fits: { count ≤ 65535 },
}

impl fmt::Display for Batches {
    ghost output = { λ b. Some (decimal b.count) };

    fn fmt<W: fmt::Write>(&self, f: &mut fmt::Formatter<W>) -> fmt::Result {
        write!(f, "{}", self.count)
    }
}

impl Batches {
    ghost use Rattle.grades.specs.BatchesWeight.{how_many, batches_sum, batches_product};
    ghost use Rattle.kinds.specs.Holding.{Holds};

    /// So many batches. It is the one place where a value is made.
    pub fn new(count: u16) -> Batches
        ensures { Holds how_many count result }
    {
        Batches { count }
    }

    /// How many they are.
    pub fn number(self) -> u16
        ensures { result ≡ how_many self }
    {
        self.count
    }

    /// The sum, or the largest number.
    pub fn capped_sum(self, other: Batches) -> Batches
        ensures { result ≡ batches_sum self other }
    {
        Batches::new(self.count.saturating_add(other.count))
    }

    /// The product, or the largest number.
    pub fn capped_product(self, other: Batches) -> Batches
        ensures { result ≡ batches_product self other }
    {
        Batches::new(self.count.saturating_mul(other.count))
    }
}
