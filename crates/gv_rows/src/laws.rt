//! Laws of the definitions in this crate. Each function does nothing: its contract is the law.

ghost use Rattle.gv_rows.specs.Laws.{DiskWriteRowLaw, ItemRowLaw, LoadRowLaw, StoreRowLaw, ToldLaw, WorkedRowsLaw};

/// Where a row has been applied, its premises hold, one after another.
pub fn rows_told()
    ensures { ToldLaw }
{}

/// Where the row of a read of a cell is applied, the read is sound beside every rest.
pub fn load_row_sound()
    ensures { LoadRowLaw }
{}

/// Where the row of a write of a cell is applied, the write is sound beside every rest.
pub fn store_row_sound()
    ensures { StoreRowLaw }
{}

/// What the row of a read comes to where its cell comes first, and where no assertion is there.
pub fn worked_rows()
    ensures { WorkedRowsLaw }
{}

/// Where the row of a write of a block is applied, the write is sound beside every rest.
pub fn disk_write_row_sound()
    ensures { DiskWriteRowLaw }
{}

/// Where the row of a read of an item is applied, the read is sound.
pub fn item_row_sound()
    ensures { ItemRowLaw }
{}
