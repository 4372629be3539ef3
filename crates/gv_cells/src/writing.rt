//! Writing cells.

ghost use Rattle.std.specs.Prelude.{◌≡◌, ◌+◌, ◌≤◌, map, true, length};
ghost use Rattle.gv_world.specs.Cells as defined;
ghost use Rattle.gv_world.specs.Cells.{only_bytes};
ghost use Rattle.gv_cells.specs.Objects as after;
ghost use Rattle.gv_cells.specs.Outcomes.{Does};

use crate::reading::{are_bytes, place, run, unmarked};
use gv_base::{Answer, Reason, Val};
use gv_world::Cell;

/// Marks the cells, which keep their values. This project's own.
pub fn mark(cells: &mut [Cell])
    ensures { cells.new ≡ map (defined.with_mark true) cells.old }
{
    for cell in cells.iter_mut() {
        cell.marked = true;
    }
}

/// Writes items into the first cells, and unmarks these. This project's own.
pub fn overwrite(cells: &mut [Cell], items: &[Val])
    requires { length items.now ≤ length cells.old }
    ensures { cells.new ≡ defined.overwritten cells.old items.now }
{
    for (i, item) in items.iter().enumerate() {
        let value = as_written(cells[i].value, *item);
        cells[i] = Cell {
            value,
            marked: false,
        };
    }
}

// What a cell with the first value holds after a write of the second.
fn as_written(old: Val, new: Val) -> Val
    ensures { result ≡ defined.as_written old new }
{
    match (old, new) {
        (Val::Byte(_), Val::Word(n)) => Val::Byte((n % 256) as u8),
        _ => new,
    }
}

/// Begins a write of so many cells from the place `offset + index` on: marks them. This project's own.
pub fn begin(cells: &mut [Cell], offset: u64, index: u64, count: u64) -> Answer<()>
    ensures { Does (after.cells_begun cells.old (offset + index) count) cells.old result cells.new }
{
    let found = run(cells, offset, index, count);
    if let Err(reason) = unmarked(found, count) {
        return Answer::Undefined(reason);
    }
    let from = place(offset, index, cells.len());
    mark(&mut cells[from..from + count as usize]);
    Answer::Next(())
}

/// The same of cells that are to hold bytes. This project's own.
pub fn begin_bytes(cells: &mut [Cell], offset: u64, index: u64, count: u64) -> Answer<()>
    ensures { Does (only_bytes (defined.run cells.old (offset + index) count) (after.cells_begun cells.old (offset + index) count)) cells.old result cells.new }
{
    if !are_bytes(run(cells, offset, index, count)) {
        return Answer::Undefined(Reason::Kind);
    }
    begin(cells, offset, index, count)
}

/// Ends a write: the cells from the place `offset + index` on hold the items, and are unmarked.
/// This project's own.
pub fn end(cells: &mut [Cell], offset: u64, index: u64, items: &[Val]) -> Answer<()>
    ensures { Does (after.cells_ended cells.old (offset + index) items.now) cells.old result cells.new }
{
    let from = place(offset, index, cells.len());
    if cells.len() - from < items.len() {
        return Answer::Undefined(Reason::OutOfRange);
    }
    overwrite(&mut cells[from..], items);
    Answer::Next(())
}
