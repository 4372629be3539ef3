//! The rows of a linear certificate.

ghost use Rattle.std.specs.Prelude.{◌≡◌, ◌<◌, ◌^◌, length, map, IfOk, true};
ghost use Rattle.std.specs.List.{All};
ghost use Rattle.gv_terms.specs.Store.{trees_at, AreIn};
ghost use Rattle.gv_certs.specs.Sums as spec;
ghost use Rattle.gv_sums.specs.Reading.{comparison_at, row_over, rows_over, IsLike, AreLike, IsWithin, summands_at, terms_in};

use crate::comparison::Compared;
use crate::numbering::{items, numbered, row_constant};
use crate::summand::Summand;
use crate::summands::add_summands;
use gv_base::{List, NoMemory};
use gv_linear::Row;
use gv_terms::{Term, TermStore};
use std::alloc::Global;

// What the higher side of a comparison is the sum of, less the lower one; 2^33 terms and more are want of memory.
fn distance(
    alloc: Global,
    store: &TermStore,
    sums: &[Term],
    comparison: Compared,
) -> Result<Vec<Summand>, NoMemory>
    requires sums { AreIn store.now sums.now }
    requires within { IsWithin store.now comparison }
    ensures within { IfOk result (λ v. AreIn store.now (terms_in v.items)) }
    ensures told { IfOk result (λ v. summands_at store.now v.items ≡ spec.row_summands (trees_at store.now sums.now) (comparison_at store.now comparison)) }
    ensures short { IfOk result (λ v. length v.items < 2 ^ 33) }
{
    let mut summands = Vec::new(alloc);
    add_summands(store, sums, comparison.high, false, &mut summands)?;
    add_summands(store, sums, comparison.low, true, &mut summands)?;
    if summands.len() > (1 << 33) - 1 {
        return Err(NoMemory);
    }
    Ok(summands)
}

// The row of a comparison over unknowns, with an item for those alone that the comparison has.
fn row(
    alloc: Global,
    store: &TermStore,
    sums: &[Term],
    unknowns: &[Term],
    comparison: Compared,
) -> Result<Row, NoMemory>
    requires sums { AreIn store.now sums.now }
    requires unknowns { AreIn store.now unknowns.now }
    requires few { length unknowns.now < 2 ^ 32 }
    requires within { IsWithin store.now comparison }
    ensures told { IfOk result (λ r. IsLike (length unknowns.now) r (row_over store.now sums.now unknowns.now comparison)) }
{
    let summands = distance(alloc, store, sums, comparison)?;
    let all = numbered(alloc, store, unknowns, summands.as_slice())?;
    let constant = row_constant(all.as_slice(), comparison.strict);
    let items = items(alloc, all.as_slice(), unknowns.len() as u32)?;
    Ok(Row {
        same: comparison.same,
        items: List::from_vec(items),
        constant,
    })
}

/// The rows of comparisons over unknowns, in order, each with items for its own unknowns alone.
pub(crate) fn rows(
    alloc: Global,
    store: &TermStore,
    sums: &[Term],
    unknowns: &[Term],
    comparisons: &[Compared],
) -> Result<Vec<Row>, NoMemory>
    requires sums { AreIn store.now sums.now }
    requires unknowns { AreIn store.now unknowns.now }
    requires few { length unknowns.now < 2 ^ 32 }
    requires within { All (IsWithin store.now) comparisons.now }
    ensures told { IfOk result (λ v. AreLike (length unknowns.now) v.items (rows_over store.now sums.now unknowns.now comparisons.now)) }
{
    let mut rows = Vec::new(alloc);
    for i in 0..comparisons.len() {
        rows.push(row(alloc, store, sums, unknowns, comparisons[i])?)?;
    }
    Ok(rows)
}
