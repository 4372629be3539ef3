//! Whether rows meet the conditions of the check.

ghost use Rattle.std.specs.Prelude.{◌≡◌, ◌+◌, ◌<◌, ◌≤◌, All, AllPairs};
ghost use Rattle.std.specs.Bool.{OnTrue};
ghost use Rattle.gv_linear.specs.Row.{IsInOrder};

use gv_linear::Row;

// Whether the unknowns of items ascend and stay below their number.
fn is_in_order(items: &[(u32, i128)], unknowns: u32) -> bool
    ensures ascending { OnTrue result (AllPairs (λ i j. i.0 < j.0) items.now) }
    ensures below { OnTrue result (All (λ i. i.0 < unknowns) items.now) }
{
    let mut from = 0;
    for item in items {
        if item.0 < from || unknowns <= item.0 {
            return false;
        }
        from = item.0 + 1;
    }
    true
}

/// Whether that holds of all rows.
pub(crate) fn are_in_order(rows: &[Row], unknowns: u32) -> bool
    ensures { OnTrue result (All (IsInOrder unknowns) rows.now) }
{
    for row in rows {
        if !is_in_order(row.items.as_slice(), unknowns) {
            return false;
        }
    }
    true
}
