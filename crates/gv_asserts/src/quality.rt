//! What is asked of atoms.

/// What an atom may be through and through. This project's own.
#[derive(Clone, Copy, Debug, PartialEq, Eq)]
pub(crate) enum Quality {
    /// A crash keeps it.
    Durable,
    /// It may be copied.
    Persistent,
    /// It holds no token.
    TokenFree,
}

/// Which of these a predicate is. This project's own.
#[derive(Clone, Copy, Debug, PartialEq, Eq)]
pub(crate) struct Kept {
    pub durable: bool,
    pub persistent: bool,
    pub token_free: bool,
}
