//! Tokens of a text, as spans of its bytes.

/// What a token is. This project's own.
#[derive(Clone, Copy, Debug, PartialEq, Eq)]
pub enum Kind {
    /// An identifier or a keyword.
    Word,
    /// A number literal.
    Number,
    /// A text literal with its quotes.
    Text,
    /// An operator or punctuation other than a semicolon.
    Sign,
    /// A semicolon: one that is written, or, where the span is empty, an inserted one.
    Semi,
}

/// A token: the bytes of a text from `start` on that come before `end`, and what they are.
/// An inserted semicolon has `start == end`. This project's own.
#[derive(Clone, Copy, Debug, PartialEq, Eq)]
pub struct Token {
    pub start: u32,
    pub end: u32,
    pub kind: Kind,
}
