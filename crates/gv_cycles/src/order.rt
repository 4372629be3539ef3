//! An order in which each number comes behind those that it names.

ghost use Rattle.std.specs.Prelude.{IfOk};
ghost use Rattle.gv_cycles.specs.Leading.{lists_of};
ghost use Rattle.gv_cycles.specs.Order.{IsOrder};

use crate::search::Search;
use gv_base::NoMemory;
use std::alloc::Global;

/// All numbers that have rows, each behind all that it names but what leads to it. `rows` has at each number those that it
/// names, which may be any. It takes as many steps as the rows have items, and memory for a few words a row.
pub fn finishing_order(alloc: Global, rows: &[Vec<u32>]) -> Result<Vec<usize>, NoMemory>
    ensures { IfOk result (λ order. IsOrder (lists_of rows.now) order.items) }
{
    let mut search = Search::new(alloc, rows)?;
    let mut root = 0;
    while root < rows.len() {
        if !search.is_seen[root] {
            search.visit(rows, root)?;
        }
        root += 1;
    }
    Ok(search.order)
}
