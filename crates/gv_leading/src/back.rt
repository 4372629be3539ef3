//! Whether a number leads back to itself.

ghost use Rattle.std.specs.Prelude.{◌≡◌, ◌<◌, ◌+◌, ℕ, [], ◌∷◌, true, false, length, IfOk, OnOk};
ghost use Rattle.gv_cycles.specs.Leading.{lists_of};
ghost use Rattle.gv_leading.specs.Back.{IsTold};

use crate::spread::Spread;
use gv_base::NoMemory;
use std::alloc::Global;

/// A number leads back to itself over those that it names. `rows` has at each number those that it names, which may be any. It takes
/// as many steps as the rows have items.
pub fn leads_back(alloc: Global, rows: &[Vec<u32>], start: usize) -> Result<bool, NoMemory>
    requires { start < length rows.now }
    ensures { IfOk result (λ is_back. IsTold (lists_of rows.now) start is_back) }
{
    let mut spread = Spread {
        is_seen: vec![in alloc; false; rows.len()]?,
        waiting: vec![in alloc; start; 1]?,
    };
    while let Some(number) = spread.waiting.pop() {
        if spread.look_at(rows, number, start)? {
            return Ok(true);
        }
    }
    Ok(false)
}
