//! Which sorts may stand where.

ghost use Rattle.std.specs.Prelude.{◌≡◌};
ghost use Rattle.gv_atomic.specs.Typed as typed;

use gv_terms::Sort;

/// Whether parameters and replies may have this sort.
pub fn is_plain(sort: Sort) -> bool
    ensures { result ≡ typed.is_plain sort }
{
    matches!(sort, Sort::Word | Sort::Bool | Sort::Bytes)
}

/// Whether fields may have this sort.
pub fn is_field_sort(sort: Sort) -> bool
    ensures { result ≡ typed.is_field_sort sort }
{
    !matches!(
        sort,
        Sort::Refs | Sort::Ref | Sort::SliceS | Sort::Call | Sort::Name
    )
}
