//! Copies of calls.

ghost use Rattle.std.specs.Prelude.{◌≡◌, IfOk};
ghost use Rattle.gv_lang.specs.Plain.{exprs_of, tree_of};
ghost use Rattle.gv_lang.specs.Tree as tree;

use crate::copies::exprs::all_copied;
use gv_base::{List, NoMemory, Place};
use gv_lang::{Cmd, Pure};
use std::alloc::Global;

#[tactic(auto, using(gv_lang::proofs::Trees::commands))]
pub(crate) fn call(
    alloc: Global,
    xs: &[u32],
    f: u32,
    es: &[Pure],
    place: Place,
) -> Result<Cmd, NoMemory>
    ensures { IfOk result (λ made. tree_of made ≡ tree.Do (tree.Call xs.now f (exprs_of es.now)) place) }
{
    Ok(Cmd::Call {
        xs: List::from_vec(Vec::from_slice(alloc, xs)?),
        f,
        es: all_copied(alloc, es)?,
        place,
    })
}

#[tactic(auto, using(gv_lang::proofs::Trees::commands))]
pub(crate) fn spawn(alloc: Global, f: u32, es: &[Pure], place: Place) -> Result<Cmd, NoMemory>
    ensures { IfOk result (λ made. tree_of made ≡ tree.Do (tree.Spawn f (exprs_of es.now)) place) }
{
    Ok(Cmd::Spawn {
        f,
        es: all_copied(alloc, es)?,
        place,
    })
}
