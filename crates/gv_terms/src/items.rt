//! Lists of items: copies, equality, and what the operators on lists make.

ghost use Rattle.std.specs.Prelude.{◌≡◌, ◌↔◌, ◌<◌, ◌^◌, IfOk, IsTrue, length, replicate, slice_set};
ghost use Rattle.gv_terms.specs.Meaning.{part_of, joined};

use gv_base::NoMemory;
use gv_trees::Item;
use std::alloc::Global;

/// A list of equal items.
pub fn copy_items<T: Item>(alloc: Global, items: &[T]) -> Result<Vec<T>, NoMemory>
    ensures { IfOk result (λ v. v.items ≡ items.now) }
{
    let mut copies = Vec::with_capacity(alloc, items.len())?;
    for item in items {
        copies.push(item.copy(alloc)?)?;
    }
    Ok(copies)
}

/// Whether the two lists are equal.
pub fn same_items<T: Item>(first: &[T], second: &[T]) -> bool
    ensures { IsTrue result ↔ (first.now ≡ second.now) }
{
    if first.len() != second.len() {
        return false;
    }
    for i in 0..first.len() {
        if !first[i].same(&second[i]) {
            return false;
        }
    }
    true
}

/// So many copies of one item.
pub fn copies<T: Item>(alloc: Global, count: u64, item: &T) -> Result<Vec<T>, NoMemory>
    ensures { IfOk result (λ v. v.items ≡ replicate count item.now) }
{
    let mut copies = Vec::with_capacity(alloc, count as usize)?;
    for _i in 0..count {
        copies.push(item.copy(alloc)?)?;
    }
    Ok(copies)
}

/// The items from one place to before another, which is cut to the length.
pub fn part<T: Item>(alloc: Global, items: &[T], from: u64, to: u64) -> Result<Vec<T>, NoMemory>
    ensures { IfOk result (λ v. v.items ≡ part_of items.now from to) }
{
    let to = (to as usize).min(items.len());
    let from = (from as usize).min(to);
    copy_items(alloc, &items[from..to])
}

/// The first list and then the second, or the first where together they have 2^63 items or more.
pub fn join<T: Item>(alloc: Global, first: &[T], second: &[T]) -> Result<Vec<T>, NoMemory>
    ensures { IfOk result (λ v. v.items ≡ joined first.now second.now) }
{
    let mut items = copy_items(alloc, first)?;
    let room = (1 << 63) - 1;
    if first.len() <= room && second.len() <= room - first.len() {
        for item in second {
            items.push(item.copy(alloc)?)?;
        }
    }
    Ok(items)
}

/// The list with one item set, or the list itself where it has none at that place.
pub fn with_item<T: Item>(
    alloc: Global,
    items: &[T],
    place: u64,
    item: T,
) -> Result<Vec<T>, NoMemory>
    ensures { IfOk result (λ v. v.items ≡ slice_set items.now place item) }
{
    let mut items = copy_items(alloc, items)?;
    if (place as usize) < items.len() {
        items[place as usize] = item;
    }
    Ok(items)
}
