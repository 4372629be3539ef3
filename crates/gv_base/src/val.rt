//! What a heap cell holds.

use crate::slice_val::SliceVal;

/// What a heap cell holds, and what a local of a thread does. A `Ref` is the number of an object,
/// where 0 is nil. This project's own.
#[derive(Clone, Copy, Debug, PartialEq, Eq)]
pub enum Val {
    /// A word of 64 bits without sign.
    Word(u64),
    Byte(u8),
    Bool(bool),
    Ref(u32),
    Slice(SliceVal),
    Unit,
}
