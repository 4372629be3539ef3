//! Copies of commands on disks.

ghost use Rattle.std.specs.Prelude.{◌≡◌, IfOk};
ghost use Rattle.gv_lang.specs.Plain.{expr_of, tree_of};
ghost use Rattle.gv_lang.specs.Tree as tree;

use crate::copies::exprs::copied;
use gv_base::{NoMemory, Place};
use gv_lang::{Cmd, Pure};
use std::alloc::Global;

#[tactic(auto, using(gv_lang::proofs::Trees::commands))]
pub(crate) fn disk_read(alloc: Global, x: u32, a: &Pure, place: Place) -> Result<Cmd, NoMemory>
    ensures { IfOk result (λ made. tree_of made ≡ tree.Do (tree.DiskRead x (expr_of a.now)) place) }
{
    Ok(Cmd::DiskRead {
        x,
        a: copied(alloc, a)?,
        place,
    })
}

#[tactic(auto, using(gv_lang::proofs::Trees::commands))]
pub(crate) fn disk_read_of(
    alloc: Global,
    x: u32,
    ok: u32,
    d: &Pure,
    a: &Pure,
    place: Place,
) -> Result<Cmd, NoMemory>
    ensures { IfOk result (λ made. tree_of made ≡ tree.Do (tree.DiskRead2 x ok (expr_of d.now) (expr_of a.now)) place) }
{
    Ok(Cmd::DiskRead2 {
        x,
        ok,
        d: copied(alloc, d)?,
        a: copied(alloc, a)?,
        place,
    })
}

#[tactic(auto, using(gv_lang::proofs::Trees::commands))]
pub(crate) fn disk_write(
    alloc: Global,
    d: &Pure,
    a: &Pure,
    s: &Pure,
    place: Place,
) -> Result<Cmd, NoMemory>
    ensures { IfOk result (λ made. tree_of made ≡ tree.Do (tree.DiskWrite (expr_of d.now) (expr_of a.now) (expr_of s.now)) place) }
{
    Ok(Cmd::DiskWrite {
        d: copied(alloc, d)?,
        a: copied(alloc, a)?,
        s: copied(alloc, s)?,
        place,
    })
}
