//! The check of factors.

ghost use Rattle.std.specs.Prelude.{◌≡◌, ℕ, ◌<◌, ◌^◌, ◌↔◌, length, All, IfSome, IfNone};
ghost use Rattle.gv_linear.specs.Row.{IsInOrder, AreContradictory};
ghost use Rattle.gv_linear.specs.Answer.{IsNegativeAt, IsFirstNegative, IsAnswer, IsSummedTo};

use crate::answer::Linear;
use crate::columns::{column_sum, next_column};
use crate::row::Row;
use crate::window::{WINDOW, are_zero};

// The first row that isn't `same` and has a factor below 0.
fn first_negative(rows: &[Row], factors: &[i128]) -> Option<u32>
    requires lengths { length rows.now ≡ length factors.now }
    requires few { length rows.now < 2 ^ 32 }
    ensures some { IfSome result (IsFirstNegative rows.now factors.now) }
    ensures none { IfNone result ((r : ℕ) → ¬ IsNegativeAt rows.now factors.now r) }
{
    for (i, row) in rows.iter().enumerate() {
        if !row.same && factors[i] < 0 {
            return Some(i as u32);
        }
    }
    None
}

// What the constants' sum tells once the unknowns' columns are summed.
fn constants_tell(rows: &[Row], factors: &[i128], unknowns: u32, zero: bool) -> Linear
    requires lengths { length rows.now ≡ length factors.now }
    requires few { length rows.now < 2 ^ 32 }
    requires in_order { All (IsInOrder unknowns) rows.now }
    requires signed { (r : ℕ) → ¬ IsNegativeAt rows.now factors.now r }
    requires summed { IsSummedTo rows.now factors.now unknowns unknowns zero }
    ensures { IsAnswer rows.now factors.now unknowns result }
{
    match column_sum(rows, factors, unknowns, unknowns) {
        Ok(sum) if zero && sum < 0 => Linear::Yes,
        Ok(_) => Linear::NotContradiction,
        Err(row) => Linear::Wide {
            row,
            column: unknowns,
        },
    }
}

// What the sums tell where those of the columns before `from` are known. It goes from one column that
// occurs to the next.
fn columns_tell(rows: &[Row], factors: &[i128], unknowns: u32, from: u32, zero: bool) -> Linear
    requires lengths { length rows.now ≡ length factors.now }
    requires few { length rows.now < 2 ^ 32 }
    requires in_order { All (IsInOrder unknowns) rows.now }
    requires signed { (r : ℕ) → ¬ IsNegativeAt rows.now factors.now r }
    requires summed { IsSummedTo rows.now factors.now unknowns from zero }
    ensures { IsAnswer rows.now factors.now unknowns result }
{
    let mut zero = zero;
    let mut column = from;
    while column < unknowns {
        match column_sum(rows, factors, unknowns, column) {
            Ok(sum) => zero = zero && sum == 0,
            Err(row) => return Linear::Wide { row, column },
        }
        column = next_column(rows, unknowns, column + 1);
    }
    constants_tell(rows, factors, unknowns, zero)
}

// What the sums tell where no factor is negative that may not be. Many columns are summed in one pass
// over the rows; where a sum of them is wide, they are gone through one by one to tell which it is.
fn sums_tell(rows: &[Row], factors: &[i128], unknowns: u32) -> Linear
    requires lengths { length rows.now ≡ length factors.now }
    requires few { length rows.now < 2 ^ 32 }
    requires in_order { All (IsInOrder unknowns) rows.now }
    requires signed { (r : ℕ) → ¬ IsNegativeAt rows.now factors.now r }
    ensures { IsAnswer rows.now factors.now unknowns result }
{
    let mut zero = true;
    let mut column = 0;
    while column < unknowns {
        let width = WINDOW.min(unknowns - column);
        match are_zero(rows, factors, unknowns, column, width) {
            Some(zeros) => zero = zero && zeros,
            None => return columns_tell(rows, factors, unknowns, column, zero),
        }
        column = next_column(rows, unknowns, column + width);
    }
    constants_tell(rows, factors, unknowns, zero)
}

/// Whether the sum of the rows, each times its factor, shows that no whole numbers meet all rows.
///
/// There are as many factors as rows, fewer than 2^32, and in each row the unknowns ascend and are
/// below `unknowns`. A factor below 0 may stand at a row that is `same` alone. The columns of the
/// unknowns are summed first, in order, then the constants as the column `unknowns`; in each the rows
/// come in order. All products and partial sums are to fit 128 bits. `Yes` where each column of an
/// unknown sums to 0 and the constants to less than 0. It takes no memory. This project's own.
pub fn check_linear(rows: &[Row], factors: &[i128], unknowns: u32) -> Linear
    requires lengths { length rows.now ≡ length factors.now }
    requires few { length rows.now < 2 ^ 32 }
    requires in_order { All (IsInOrder unknowns) rows.now }
    ensures exact { (answer : Linear) → (result ≡ answer) ↔ IsAnswer rows.now factors.now unknowns answer }
    ensures sound { result ≡ Linear.Yes → AreContradictory rows.now }
{
    match first_negative(rows, factors) {
        Some(row) => Linear::Negative { row },
        None => sums_tell(rows, factors, unknowns),
    }
}
