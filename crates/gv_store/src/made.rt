//! The cells of fresh objects.

ghost use Rattle.std.specs.Prelude.{◌≡◌, ◌++◌, ◌∷◌, map, replicate, IfOk};
ghost use Rattle.gv_world.specs.Disks as disks;
ghost use Rattle.gv_world.specs.Slices as slices;

use gv_base::{NoMemory, Val};
use gv_cells::zero_like;
use gv_world::Cell;
use std::alloc::Global;

// A cell that is in no write.
fn new_cell(value: Val) -> Cell
    ensures { result ≡ slices.new_cell value }
{
    Cell {
        value,
        marked: false,
    }
}

/// Cells that hold these values. This project's own.
pub fn value_cells(alloc: Global, items: &[Val]) -> Result<Vec<Cell>, NoMemory>
    ensures { IfOk result (λ v. v.items ≡ map slices.new_cell items.now) }
{
    let mut cells = Vec::with_capacity(alloc, items.len())?;
    for item in items {
        cells.push(new_cell(*item))?;
    }
    Ok(cells)
}

/// So many cells that hold this value. This project's own.
pub fn equal_cells(alloc: Global, count: u64, value: Val) -> Result<Vec<Cell>, NoMemory>
    ensures { IfOk result (λ v. v.items ≡ replicate count (slices.new_cell value)) }
{
    let mut cells = Vec::with_capacity(alloc, count as usize)?;
    for _i in 0..count {
        cells.push(new_cell(value))?;
    }
    Ok(cells)
}

/// Cells that hold these bytes. This project's own.
pub fn byte_cells(alloc: Global, bytes: &[u8]) -> Result<Vec<Cell>, NoMemory>
    ensures { IfOk result (λ v. v.items ≡ disks.byte_cells bytes.now) }
{
    let mut cells = Vec::with_capacity(alloc, bytes.len())?;
    for byte in bytes {
        cells.push(new_cell(Val::Byte(*byte)))?;
    }
    Ok(cells)
}

/// The cells with their values, the item, and so many zeros of its kind, none in a write.
/// This project's own.
pub fn grown_cells(
    alloc: Global,
    cells: &[Cell],
    item: Val,
    extra: u64,
) -> Result<Vec<Cell>, NoMemory>
    ensures { IfOk result (λ v. v.items ≡ slices.grown cells.now item extra) }
{
    let mut grown = unmarked_cells(alloc, cells)?;
    grown.push(new_cell(item))?;
    let spare = equal_cells(alloc, extra, zero_like(item))?;
    grown.extend_from_slice(spare.as_slice())?;
    Ok(grown)
}

// The cells with their values, none in a write.
fn unmarked_cells(alloc: Global, cells: &[Cell]) -> Result<Vec<Cell>, NoMemory>
    ensures { IfOk result (λ v. v.items ≡ map (λ c. slices.new_cell c.value) cells.now) }
{
    let mut unmarked = Vec::with_capacity(alloc, cells.len())?;
    for cell in cells {
        unmarked.push(new_cell(cell.value))?;
    }
    Ok(unmarked)
}
