//! What rules are made of.

/// One symbol of a rule's row.
#[derive(Clone, Copy, Debug, PartialEq, Eq)]
pub enum Symbol {
    /// A token of a class in this set.
    Token(u8),
    /// What a rule of this name derives.
    Name(u8),
    /// An act: something to do here, for whoever goes through the steps.
    Act(u8),
}
