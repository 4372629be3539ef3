//! Copies of commands on slices.

ghost use Rattle.std.specs.Prelude.{◌≡◌, IfOk};
ghost use Rattle.gv_lang.specs.Plain.{expr_of, tree_of};
ghost use Rattle.gv_lang.specs.Tree as tree;

use crate::copies::exprs::copied;
use gv_base::{NoMemory, Place};
use gv_lang::{Cmd, ItemKind, Pure};
use std::alloc::Global;

#[tactic(auto, using(gv_lang::proofs::Trees::commands))]
pub(crate) fn make_slice(
    alloc: Global,
    x: u32,
    item: ItemKind,
    n: &Pure,
    place: Place,
) -> Result<Cmd, NoMemory>
    ensures { IfOk result (λ made. tree_of made ≡ tree.Do (tree.MakeSlice x item (expr_of n.now)) place) }
{
    Ok(Cmd::MakeSlice {
        x,
        item,
        n: copied(alloc, n)?,
        place,
    })
}

#[tactic(auto, using(gv_lang::proofs::Trees::commands))]
pub(crate) fn at(alloc: Global, x: u32, s: &Pure, i: &Pure, place: Place) -> Result<Cmd, NoMemory>
    ensures { IfOk result (λ made. tree_of made ≡ tree.Do (tree.At x (expr_of s.now) (expr_of i.now)) place) }
{
    Ok(Cmd::At {
        x,
        s: copied(alloc, s)?,
        i: copied(alloc, i)?,
        place,
    })
}

#[tactic(auto, using(gv_lang::proofs::Trees::commands))]
pub(crate) fn put(
    alloc: Global,
    s: &Pure,
    i: &Pure,
    v: &Pure,
    place: Place,
) -> Result<Cmd, NoMemory>
    ensures { IfOk result (λ made. tree_of made ≡ tree.Do (tree.Put (expr_of s.now) (expr_of i.now) (expr_of v.now)) place) }
{
    Ok(Cmd::Put {
        s: copied(alloc, s)?,
        i: copied(alloc, i)?,
        v: copied(alloc, v)?,
        place,
    })
}

#[tactic(auto, using(gv_lang::proofs::Trees::commands))]
pub(crate) fn get_word(alloc: Global, x: u32, s: &Pure, place: Place) -> Result<Cmd, NoMemory>
    ensures { IfOk result (λ made. tree_of made ≡ tree.Do (tree.Get64 x (expr_of s.now)) place) }
{
    Ok(Cmd::Get64 {
        x,
        s: copied(alloc, s)?,
        place,
    })
}

#[tactic(auto, using(gv_lang::proofs::Trees::commands))]
pub(crate) fn put_word(alloc: Global, s: &Pure, v: &Pure, place: Place) -> Result<Cmd, NoMemory>
    ensures { IfOk result (λ made. tree_of made ≡ tree.Do (tree.Put64 (expr_of s.now) (expr_of v.now)) place) }
{
    Ok(Cmd::Put64 {
        s: copied(alloc, s)?,
        v: copied(alloc, v)?,
        place,
    })
}

#[tactic(auto, using(gv_lang::proofs::Trees::commands))]
pub(crate) fn part(
    alloc: Global,
    x: u32,
    s: &Pure,
    a: &Pure,
    b: &Pure,
    place: Place,
) -> Result<Cmd, NoMemory>
    ensures { IfOk result (λ made. tree_of made ≡ tree.Do (tree.Sub x (expr_of s.now) (expr_of a.now) (expr_of b.now)) place) }
{
    Ok(Cmd::Sub {
        x,
        s: copied(alloc, s)?,
        a: copied(alloc, a)?,
        b: copied(alloc, b)?,
        place,
    })
}

#[tactic(auto, using(gv_lang::proofs::Trees::commands))]
pub(crate) fn append(
    alloc: Global,
    x: u32,
    item: ItemKind,
    s: &Pure,
    v: &Pure,
    place: Place,
) -> Result<Cmd, NoMemory>
    ensures { IfOk result (λ made. tree_of made ≡ tree.Do (tree.Append x item (expr_of s.now) (expr_of v.now)) place) }
{
    Ok(Cmd::Append {
        x,
        item,
        s: copied(alloc, s)?,
        v: copied(alloc, v)?,
        place,
    })
}
