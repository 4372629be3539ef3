//! What a check of factors answers.

/// What a check of factors tells. Rows and columns are counted from 0; the constants are the column
/// after those of the unknowns. This project's own.
#[derive(Debug, Clone, Copy, PartialEq, Eq, Drop)]
pub enum Linear {
    /// The rows contradict each other.
    Yes,
    /// The first row that isn't `same` and has a factor below 0.
    Negative { row: u32 },
    /// The first product or partial sum outside -2^127 to 2^127-1.
    Wide { row: u32, column: u32 },
    /// The sums don't show a contradiction.
    NotContradiction,
}
