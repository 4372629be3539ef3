//! The cells of objects.

use gv_base::Val;

/// A cell of an object: its value, and whether a write of it has begun and not ended.
/// This project's own.
#[derive(Clone, Copy, Debug, PartialEq, Eq)]
pub struct Cell {
    pub value: Val,
    pub marked: bool,
}
