//! Sums of columns.

ghost use Rattle.std.specs.Prelude.{◌≡◌, ℕ, ◌<◌, ◌≤◌, ◌^◌, ◌*ℤ◌, pos, length, All, IfOk, IfErr, OnOk};
ghost use Rattle.gv_linear.specs.Row.{coefficient, IsInOrder};
ghost use Rattle.gv_linear.specs.Columns.{IsAdded, products, total, IsFirstWideIn, IsNarrow};

use crate::row::Row;

// A product added to a sum, where both fit 128 bits.
pub(crate) fn added(sum: i128, factor: i128, entry: i128) -> Option<i128>
    ensures { IsAdded sum (factor *ℤ entry) result }
{
    match factor.checked_mul(entry) {
        Some(product) => sum.checked_add(product),
        None => None,
    }
}

// The sum of a column, or its first row where a product or a partial sum is wide.
pub(crate) fn column_sum(
    rows: &[Row],
    factors: &[i128],
    unknowns: u32,
    column: u32,
) -> Result<i128, u32>
    requires lengths { length rows.now ≡ length factors.now }
    requires few { length rows.now < 2 ^ 32 }
    requires in_order { All (IsInOrder unknowns) rows.now }
    ensures sum { IfOk result (λ sum. sum ≡ total (products rows.now factors.now unknowns column)) }
    ensures narrow { OnOk result (IsNarrow (products rows.now factors.now unknowns column)) }
    ensures wide { IfErr result (IsFirstWideIn (products rows.now factors.now unknowns column)) }
{
    let mut sum: i128 = 0;
    for (i, row) in rows.iter().enumerate() {
        match added(sum, factors[i], row.entry(unknowns, column)) {
            Some(more) => sum = more,
            None => return Err(i as u32),
        }
    }
    Ok(sum)
}

// The next column of an unknown in which a row has an item, from this column on; or the number of
// unknowns. No row has an item between.
pub(crate) fn next_column(rows: &[Row], unknowns: u32, from: u32) -> u32
    requires within { from ≤ unknowns }
    requires in_order { All (IsInOrder unknowns) rows.now }
    ensures low { from ≤ result }
    ensures high { result ≤ unknowns }
    ensures between { (c : ℕ) → from ≤ c → c < result → All (λ row. coefficient c row.items ≡ pos 0) rows.now }
{
    let mut next = unknowns;
    for row in rows {
        match row.unknown_from(unknowns, from) {
            Some(unknown) if unknown == from => return from,
            Some(unknown) if unknown < next => next = unknown,
            _ => {}
        }
    }
    next
}
