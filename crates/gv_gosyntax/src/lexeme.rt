//! Tokens as the grammar of packages sees them.

/// A token: its class, one of the CLASS_ constants of the tables, and the bytes of the text from `start` on that come
/// before `end`.
#[derive(Clone, Copy, Debug, PartialEq, Eq)]
pub struct Lexeme {
    pub class: u8,
    pub start: u32,
    pub end: u32,
}
