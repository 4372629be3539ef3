//! Tokens as grammars of own texts see them.

/// A token of a text: its class, one of the CLASS_ constants of a grammar, the bytes of the text from `start` on that come
/// before `end`, and the value of a number, 0 for any other token.
#[derive(Clone, Copy, Debug, PartialEq, Eq)]
pub struct SeenToken {
    pub class: u8,
    pub start: u32,
    pub end: u32,
    pub value: u64,
}
