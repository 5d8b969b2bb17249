//! A part that runs or does not.

/// Whether a part runs.
#[derive(Clone, Copy, PartialEq, Eq, PartialOrd, Ord)]
pub enum Service {
    /// It does not.
    Down,
    /// It does.
    Up,
}
