//! Sums of several columns in one pass over the rows.

ghost use Rattle.std.specs.Prelude.{◌≡◌, ◌≢◌, ℕ, ◌+◌, ◌<◌, ◌≤◌, ◌*ℤ◌, pos, length, All, Some, IfSome, IsTrue};
ghost use Rattle.std.specs.Bool.{IsFalse};
ghost use Rattle.std.specs.List.{slice_index_or};
ghost use Rattle.gv_linear.specs.Row.{entry, coefficient, IsInOrder};
ghost use Rattle.gv_linear.specs.Columns.{products, IsAdded, AreColumnsTo, AreSummed};

use crate::columns::added;
use crate::row::Row;

/// The most columns of one pass.
pub(crate) const WINDOW: u32 = 64;

// Adds a row's products to the sums of the columns from `from` on. False where one is wide.
fn add_row(sums: &mut [i128], row: &Row, factor: i128, unknowns: u32, from: u32) -> bool
    requires in_order { IsInOrder unknowns row.now }
    requires within { from + length sums.old ≤ unknowns }
    ensures length { length sums.new ≡ length sums.old }
    ensures added { IsTrue result → (k : ℕ) → k < length sums.old
        → IsAdded (slice_index_or sums.old k (pos 0)) (factor *ℤ entry unknowns (from + k) row.now) (Some (slice_index_or sums.new k (pos 0))) }
{
    for k in 0..sums.len() {
        match added(sums[k], factor, row.entry(unknowns, from + k as u32)) {
            Some(more) => sums[k] = more,
            None => return false,
        }
    }
    true
}

// Whether a row has an item in one of the columns from `from` on that come before `end`.
fn occurs(row: &Row, unknowns: u32, from: u32, end: u32) -> bool
    requires in_order { IsInOrder unknowns row.now }
    requires within { end ≤ unknowns }
    ensures none { IsFalse result → (c : ℕ) → from ≤ c → c < end → coefficient c row.now.items ≡ pos 0 }
{
    match row.unknown_from(unknowns, from) {
        Some(unknown) => unknown < end,
        None => false,
    }
}

// Sums the columns from `from` on, as many as there are sums. False where a product or a sum is wide.
fn sum_columns(sums: &mut [i128], rows: &[Row], factors: &[i128], unknowns: u32, from: u32) -> bool
    requires lengths { length rows.now ≡ length factors.now }
    requires in_order { All (IsInOrder unknowns) rows.now }
    requires within { from + length sums.old ≤ unknowns }
    requires empty { All (λ sum. sum ≡ pos 0) sums.old }
    ensures length { length sums.new ≡ length sums.old }
    ensures summed { IsTrue result → AreColumnsTo rows.now factors.now unknowns from (length rows.now) sums.new }
{
    let end = from + sums.len() as u32;
    for (i, row) in rows.iter().enumerate() {
        let factor = factors[i];
        if occurs(row, unknowns, from, end) && !add_row(sums, row, factor, unknowns, from) {
            return false;
        }
    }
    true
}

// Whether all are 0.
fn all_zero(sums: &[i128]) -> bool
    ensures zero { IsTrue result → All (λ sum. sum ≡ pos 0) sums.now }
    ensures other { IsFalse result → (k : ℕ) × (k < length sums.now) × (slice_index_or sums.now k (pos 0) ≢ pos 0) }
{
    for sum in sums {
        if *sum != 0 {
            return false;
        }
    }
    true
}

// Whether the columns from `from` on all sum to 0, as many as there is room for; or nothing, where a
// product or a partial sum of theirs is wide.
fn are_zero_in(
    sums: &mut [i128],
    rows: &[Row],
    factors: &[i128],
    unknowns: u32,
    from: u32,
) -> Option<bool>
    requires lengths { length rows.now ≡ length factors.now }
    requires in_order { All (IsInOrder unknowns) rows.now }
    requires within { from + length sums.old ≤ unknowns }
    requires empty { All (λ sum. sum ≡ pos 0) sums.old }
    ensures { IfSome result (AreSummed rows.now factors.now unknowns from (length sums.old)) }
{
    if sum_columns(sums, rows, factors, unknowns, from) {
        Some(all_zero(sums))
    } else {
        None
    }
}

// Whether the columns from `from` on, `width` of them, all sum to 0; or nothing, where a product or a
// partial sum of theirs is wide.
pub(crate) fn are_zero(
    rows: &[Row],
    factors: &[i128],
    unknowns: u32,
    from: u32,
    width: u32,
) -> Option<bool>
    requires lengths { length rows.now ≡ length factors.now }
    requires in_order { All (IsInOrder unknowns) rows.now }
    requires few { width ≤ 64 }
    requires within { from + width ≤ unknowns }
    ensures { IfSome result (AreSummed rows.now factors.now unknowns from width) }
{
    let mut table = [0i128; 64];
    are_zero_in(&mut table[..width as usize], rows, factors, unknowns, from)
}
