//! What a derivation consists of.

/// One step along a derivation.
#[derive(Clone, Copy, Debug, PartialEq, Eq)]
pub enum Step {
    /// The next token is taken.
    Take,
    /// This act is due.
    Do(u8),
}
