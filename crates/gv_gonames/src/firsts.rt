//! Tables in which the first of the values that are put at a name counts.

ghost use Rattle.std.specs.Prelude.{◌≡◌, ℕ, List as Seq, is_none, IfOk, OnOk, OnErr};
ghost use Rattle.std.specs.Str.{bytes_eq};
ghost use Rattle.gv_gonames.specs.Firsts.{or_first, value_at};

use gv_base::NoMemory;
use indexmap::IndexMap;
use std::alloc::Global;

/// Puts a value at a name where there is none, and tells whether there was none.
pub(crate) fn put_first<V: Copy + Drop>(
    alloc: Global,
    table: &mut IndexMap<Vec<u8>, V>,
    name: &[u8],
    value: V,
) -> Result<bool, NoMemory>
    ensures told { IfOk result (λ new. new ≡ is_none (value_at table.old name.now)) }
    ensures put { OnOk result ((n : Seq ℕ) → value_at table.new n ≡ or_first (value_at table.old n) (bytes_eq n name.now) value) }
    ensures kept { OnErr result ((n : Seq ℕ) → value_at table.new n ≡ value_at table.old n) }
{
    if table.contains_key(name) {
        return Ok(false);
    }
    let key = Vec::from_slice(alloc, name)?;
    table.insert(key, value)?;
    Ok(true)
}
