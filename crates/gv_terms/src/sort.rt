//! The sorts of terms.

/// What a term's value is. This project's own.
#[derive(Clone, Copy, Debug, PartialEq, Eq)]
pub enum Sort {
    /// A number below 2^64.
    Word,
    Bool,
    /// A list of numbers below 256.
    Bytes,
    /// A list of words.
    Words,
    /// A list of references.
    Refs,
    /// A list of byte strings.
    Blocks,
    /// A finite map from words to words.
    MapWW,
    /// A finite map from words to byte strings.
    MapWB,
    /// A reference; 0 is nil.
    Ref,
    /// A slice: object, offset, length and capacity.
    SliceS,
    /// The number of a call; 0 is none.
    Call,
    Name,
}
