//! Slices as values.

/// A slice: the object that holds its cells, the place of its first cell there, its length, and its
/// capacity, which is its length and the spare cells behind it. All three are counted in cells.
/// Object 0 is nil. This project's own, after the Go specification, "Slice types".
#[derive(Clone, Copy, Debug, PartialEq, Eq)]
pub struct SliceVal {
    pub object: u32,
    pub offset: u64,
    pub length: u64,
    pub capacity: u64,
}
