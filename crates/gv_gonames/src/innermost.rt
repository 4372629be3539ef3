//! Look-ups of names within a function.

ghost use Rattle.std.specs.Prelude.{◌≡◌, ℕ, List as Seq, cond, true, is_some, Some, None, OnOk, OnErr};
ghost use Rattle.std.specs.Str.{bytes_eq};
ghost use Rattle.gv_gonames.specs.Firsts.{value_at};
ghost use Rattle.gv_gonames.specs.Trail.{flat, found_by, is_here_by};

use crate::trail::Local;
use gv_base::NoMemory;
use gv_gotypes::{Entity, Found};
use indexmap::IndexMap;

/// The innermost declaration of a name in a table.
pub(crate) fn local_at(seen: &IndexMap<Vec<u8>, Option<Local>>, name: &[u8]) -> Option<Local>
    ensures { result ≡ flat (value_at seen.now name.now) }
{
    match seen.get(name) {
        Some(local) => *local,
        None => None,
    }
}

/// What a name stands for by its innermost declaration, or in the package, where so many literals behind `go` are open.
pub(crate) fn found_as(
    local: Option<Local>,
    other: Option<Entity>,
    literals: usize,
) -> Option<Found>
    ensures { result ≡ found_by local other literals }
{
    match (local, other) {
        (Some(local), _) => Some(Found {
            entity: local.entity,
            is_outer: local.literals < literals,
        }),
        (None, Some(entity)) => Some(Found {
            entity,
            is_outer: 0 < literals,
        }),
        (None, None) => None,
    }
}

/// A declaration stands in the block that was opened last, where so many are open.
pub(crate) fn is_in_block(local: Option<Local>, blocks: usize) -> bool
    ensures { result ≡ is_here_by local blocks }
{
    match local {
        Some(local) => local.blocks == blocks,
        None => false,
    }
}

/// Puts an innermost declaration, or none, at a name. It takes memory only where the table has nothing at the name.
pub(crate) fn put(
    seen: &mut IndexMap<Vec<u8>, Option<Local>>,
    name: Vec<u8>,
    local: Option<Local>,
) -> Result<(), NoMemory>
    ensures put { OnOk result ((n : Seq ℕ) → value_at seen.new n ≡ cond (bytes_eq n name.items) (Some local) (value_at seen.old n)) }
    ensures kept { OnErr result ((n : Seq ℕ) → value_at seen.new n ≡ value_at seen.old n) }
    ensures absent { OnErr result (value_at seen.old name.items ≡ None) }
{
    seen.insert(name, local)?;
    Ok(())
}

/// The same at a name where the table has something.
pub(crate) fn put_back(
    seen: &mut IndexMap<Vec<u8>, Option<Local>>,
    name: Vec<u8>,
    local: Option<Local>,
)
    requires { is_some (value_at seen.old name.items) ≡ true }
    ensures { (n : Seq ℕ) → value_at seen.new n ≡ cond (bytes_eq n name.items) (Some local) (value_at seen.old n) }
{
    match put(seen, name, local) {
        Ok(()) => {}
        Err(_) => unreachable!(),
    }
}
