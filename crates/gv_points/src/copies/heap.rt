//! Copies of commands on structs and mutexes.

ghost use Rattle.std.specs.Prelude.{◌≡◌, IfOk};
ghost use Rattle.gv_lang.specs.Plain.{expr_of, exprs_of, tree_of};
ghost use Rattle.gv_lang.specs.Tree as tree;

use crate::copies::exprs::{all_copied, copied};
use gv_base::{NoMemory, Place};
use gv_lang::{Cmd, Pure};
use std::alloc::Global;

#[tactic(auto, using(gv_lang::proofs::Trees::commands))]
pub(crate) fn make_struct(
    alloc: Global,
    x: u32,
    of: u32,
    vs: &[Pure],
    place: Place,
) -> Result<Cmd, NoMemory>
    ensures { IfOk result (λ made. tree_of made ≡ tree.Do (tree.New x of (exprs_of vs.now)) place) }
{
    Ok(Cmd::New {
        x,
        of,
        vs: all_copied(alloc, vs)?,
        place,
    })
}

#[tactic(auto, using(gv_lang::proofs::Trees::commands))]
pub(crate) fn load(
    alloc: Global,
    x: u32,
    p: &Pure,
    of: u32,
    field: u32,
    place: Place,
) -> Result<Cmd, NoMemory>
    ensures { IfOk result (λ made. tree_of made ≡ tree.Do (tree.Load x (expr_of p.now) of field) place) }
{
    Ok(Cmd::Load {
        x,
        p: copied(alloc, p)?,
        of,
        field,
        place,
    })
}

#[tactic(auto, using(gv_lang::proofs::Trees::commands))]
pub(crate) fn store(
    alloc: Global,
    p: &Pure,
    of: u32,
    field: u32,
    e: &Pure,
    place: Place,
) -> Result<Cmd, NoMemory>
    ensures { IfOk result (λ made. tree_of made ≡ tree.Do (tree.Store (expr_of p.now) of field (expr_of e.now)) place) }
{
    Ok(Cmd::Store {
        p: copied(alloc, p)?,
        of,
        field,
        e: copied(alloc, e)?,
        place,
    })
}

#[tactic(auto, using(gv_lang::proofs::Trees::commands))]
pub(crate) fn lock(alloc: Global, m: &Pure, place: Place) -> Result<Cmd, NoMemory>
    ensures { IfOk result (λ made. tree_of made ≡ tree.Do (tree.Lock (expr_of m.now)) place) }
{
    Ok(Cmd::Lock {
        m: copied(alloc, m)?,
        place,
    })
}

#[tactic(auto, using(gv_lang::proofs::Trees::commands))]
pub(crate) fn unlock(alloc: Global, m: &Pure, place: Place) -> Result<Cmd, NoMemory>
    ensures { IfOk result (λ made. tree_of made ≡ tree.Do (tree.Unlock (expr_of m.now)) place) }
{
    Ok(Cmd::Unlock {
        m: copied(alloc, m)?,
        place,
    })
}
