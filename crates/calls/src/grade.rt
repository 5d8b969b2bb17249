//! How good a part is.

/// How good a part is: the sequences have grades 0 to 9.
#[derive(Clone, Copy, PartialEq, Eq)]
pub struct Grade {
    /// The higher, the better.
    pub number: u8,
}
