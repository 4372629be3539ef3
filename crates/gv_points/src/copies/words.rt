//! Copies of commands that set a local to a word.

ghost use Rattle.std.specs.Prelude.{◌≡◌, IfOk};
ghost use Rattle.gv_lang.specs.Plain.{expr_of, tree_of};
ghost use Rattle.gv_lang.specs.Tree as tree;

use crate::copies::exprs::copied;
use gv_base::{NoMemory, Place};
use gv_lang::{Cmd, Pure};
use std::alloc::Global;

#[tactic(auto, using(gv_lang::proofs::Trees::commands))]
pub(crate) fn local(alloc: Global, x: u32, e: &Pure, place: Place) -> Result<Cmd, NoMemory>
    ensures { IfOk result (λ made. tree_of made ≡ tree.Do (tree.Let x (expr_of e.now)) place) }
{
    Ok(Cmd::Let {
        x,
        e: copied(alloc, e)?,
        place,
    })
}

#[tactic(auto, using(gv_lang::proofs::Trees::commands))]
pub(crate) fn divide(
    alloc: Global,
    x: u32,
    a: &Pure,
    b: &Pure,
    place: Place,
) -> Result<Cmd, NoMemory>
    ensures { IfOk result (λ made. tree_of made ≡ tree.Do (tree.Div x (expr_of a.now) (expr_of b.now)) place) }
{
    Ok(Cmd::Div {
        x,
        a: copied(alloc, a)?,
        b: copied(alloc, b)?,
        place,
    })
}

#[tactic(auto, using(gv_lang::proofs::Trees::commands))]
pub(crate) fn remainder(
    alloc: Global,
    x: u32,
    a: &Pure,
    b: &Pure,
    place: Place,
) -> Result<Cmd, NoMemory>
    ensures { IfOk result (λ made. tree_of made ≡ tree.Do (tree.Rem x (expr_of a.now) (expr_of b.now)) place) }
{
    Ok(Cmd::Rem {
        x,
        a: copied(alloc, a)?,
        b: copied(alloc, b)?,
        place,
    })
}

#[tactic(auto, using(gv_lang::proofs::Trees::commands))]
pub(crate) fn length(alloc: Global, x: u32, s: &Pure, place: Place) -> Result<Cmd, NoMemory>
    ensures { IfOk result (λ made. tree_of made ≡ tree.Do (tree.Len x (expr_of s.now)) place) }
{
    Ok(Cmd::Len {
        x,
        s: copied(alloc, s)?,
        place,
    })
}
