//! Rows of whole numbers.

ghost use Rattle.std.specs.Prelude.{◌≡◌, ℕ, ℤ, ◌<◌, ◌≤◌, pos, length, nat_lt, IfSome, IfNone};
ghost use Rattle.std.specs.List.{slice_index_or};
ghost use Rattle.gv_linear.specs.Row.{coefficient, entry, IsInOrder};

use gv_base::List;

/// A sum of items, each an unknown with its coefficient, and of a constant: it is 0 where `same`, else
/// at least 0. The unknowns of the items ascend. This project's own.
#[derive(Debug, Drop)]
pub struct Row {
    pub same: bool,
    pub items: List<(u32, i128)>,
    pub constant: i128,
}

impl Row {
    // How many items have an unknown below this one.
    fn place(&self, unknowns: u32, unknown: u32) -> usize
        requires { IsInOrder unknowns self.now }
        ensures within { result ≤ length self.now.items }
        ensures before { (k : ℕ) (d : ℕ × ℤ) → k < result → (slice_index_or self.now.items k d).0 < unknown }
        ensures behind { (k : ℕ) (d : ℕ × ℤ) → result ≤ k → k < length self.now.items → unknown ≤ (slice_index_or self.now.items k d).0 }
    {
        self.items.as_slice().partition_point(
            |item: &(u32, i128)| -> bool
                ensures { result ≡ nat_lt item.now.0 unknown }
            { item.0 < unknown },
        )
    }

    // What the row has in a column: a coefficient, or the constant in the column after the unknowns'.
    pub(crate) fn entry(&self, unknowns: u32, column: u32) -> i128
        requires { IsInOrder unknowns self.now }
        ensures { result ≡ entry unknowns column self.now }
    {
        if column == unknowns {
            return self.constant;
        }
        match self.items.get(self.place(unknowns, column)) {
            Some(item) if item.0 == column => item.1,
            _ => 0,
        }
    }

    // The first unknown of the row that is at least `from`.
    pub(crate) fn unknown_from(&self, unknowns: u32, from: u32) -> Option<u32>
        requires { IsInOrder unknowns self.now }
        ensures within { IfSome result (λ u. (from ≤ u) × (u < unknowns)) }
        ensures before { IfSome result (λ u. (c : ℕ) → from ≤ c → c < u → coefficient c self.now.items ≡ pos 0) }
        ensures none { IfNone result ((c : ℕ) → from ≤ c → coefficient c self.now.items ≡ pos 0) }
    {
        match self.items.get(self.place(unknowns, from)) {
            Some(item) => Some(item.0),
            None => None,
        }
    }
}
