//! Copies of commands on maps.

ghost use Rattle.std.specs.Prelude.{◌≡◌, IfOk};
ghost use Rattle.gv_lang.specs.Plain.{expr_of, tree_of};
ghost use Rattle.gv_lang.specs.Tree as tree;

use crate::copies::exprs::copied;
use gv_base::{NoMemory, Place};
use gv_lang::{Cmd, Pure};
use std::alloc::Global;

#[tactic(auto, using(gv_lang::proofs::Trees::commands))]
pub(crate) fn map_get(
    alloc: Global,
    x: u32,
    ok: u32,
    m: &Pure,
    k: &Pure,
    place: Place,
) -> Result<Cmd, NoMemory>
    ensures { IfOk result (λ made. tree_of made ≡ tree.Do (tree.MapGet x ok (expr_of m.now) (expr_of k.now)) place) }
{
    Ok(Cmd::MapGet {
        x,
        ok,
        m: copied(alloc, m)?,
        k: copied(alloc, k)?,
        place,
    })
}

#[tactic(auto, using(gv_lang::proofs::Trees::commands))]
pub(crate) fn map_put(
    alloc: Global,
    m: &Pure,
    k: &Pure,
    v: &Pure,
    place: Place,
) -> Result<Cmd, NoMemory>
    ensures { IfOk result (λ made. tree_of made ≡ tree.Do (tree.MapPut (expr_of m.now) (expr_of k.now) (expr_of v.now)) place) }
{
    Ok(Cmd::MapPut {
        m: copied(alloc, m)?,
        k: copied(alloc, k)?,
        v: copied(alloc, v)?,
        place,
    })
}

#[tactic(auto, using(gv_lang::proofs::Trees::commands))]
pub(crate) fn map_delete(alloc: Global, m: &Pure, k: &Pure, place: Place) -> Result<Cmd, NoMemory>
    ensures { IfOk result (λ made. tree_of made ≡ tree.Do (tree.MapDelete (expr_of m.now) (expr_of k.now)) place) }
{
    Ok(Cmd::MapDelete {
        m: copied(alloc, m)?,
        k: copied(alloc, k)?,
        place,
    })
}
