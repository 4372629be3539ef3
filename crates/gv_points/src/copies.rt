//! What points have of commands: a copy without its blocks, the place, and the locals that it sets.

mod calls;
mod disks;
mod exprs;
mod heap;
mod maps;
mod slices;
mod words;

ghost use Rattle.std.specs.Prelude.{◌≡◌, [], ◌∷◌, IfOk};
ghost use Rattle.gv_lang.specs.Plain.{expr_of, exprs_of, tree_of};
ghost use Rattle.gv_lang.specs.Tree as tree;
ghost use Rattle.gv_lockstep.specs.Sites.{bare, place_of, targets_of};

use crate::copies::calls::{call, spawn};
use crate::copies::disks::{disk_read, disk_read_of, disk_write};
use crate::copies::exprs::{all_copied, copied};
use crate::copies::heap::{load, lock, make_struct, store, unlock};
use crate::copies::maps::{map_delete, map_get, map_put};
use crate::copies::slices::{append, at, get_word, make_slice, part, put, put_word};
use crate::copies::words::{divide, length, local, remainder};
use gv_base::{List, NoMemory, Place};
use gv_lang::{Cmd, Pure};
use std::alloc::Global;

#[tactic(auto, using(gv_lang::proofs::Trees::commands))]
fn branch(alloc: Global, e: &Pure, place: Place) -> Result<Cmd, NoMemory>
    ensures { IfOk result (λ made. tree_of made ≡ tree.If (expr_of e.now) tree.finish tree.finish place) }
{
    let e = copied(alloc, e)?;
    let then = List::new(alloc);
    let other = List::new(alloc);
    Ok(Cmd::If {
        e,
        then,
        other,
        place,
    })
}

#[tactic(auto, using(gv_lang::proofs::Trees::commands))]
fn repetition(alloc: Global, place: Place) -> Cmd
    ensures { tree_of result ≡ tree.Loop tree.finish place }
{
    let body = List::new(alloc);
    Cmd::Loop { body, place }
}

#[tactic(auto, using(gv_lang::proofs::Trees::commands))]
fn give_back(alloc: Global, es: &[Pure], place: Place) -> Result<Cmd, NoMemory>
    ensures { IfOk result (λ made. tree_of made ≡ tree.Return (exprs_of es.now) place) }
{
    let es = all_copied(alloc, es)?;
    Ok(Cmd::Return { es, place })
}

/// A copy of a command, of an If and a Loop without their blocks.
#[tactic(auto, using(gv_lang::proofs::Trees::commands))]
pub(crate) fn action(alloc: Global, c: &Cmd) -> Result<Cmd, NoMemory>
    ensures { IfOk result (λ made. tree_of made ≡ bare (tree_of c.now)) }
{
    match c {
        Cmd::Let { x, e, place } => local(alloc, *x, e, *place),
        Cmd::Div { x, a, b, place } => divide(alloc, *x, a, b, *place),
        Cmd::Rem { x, a, b, place } => remainder(alloc, *x, a, b, *place),
        Cmd::Len { x, s, place } => length(alloc, *x, s, *place),
        Cmd::New { x, of, vs, place } => make_struct(alloc, *x, *of, vs.as_slice(), *place),
        Cmd::Load {
            x,
            p,
            of,
            field,
            place,
        } => load(alloc, *x, p, *of, *field, *place),
        Cmd::Store {
            p,
            of,
            field,
            e,
            place,
        } => store(alloc, p, *of, *field, e, *place),
        Cmd::MakeSlice { x, item, n, place } => make_slice(alloc, *x, *item, n, *place),
        Cmd::At { x, s, i, place } => at(alloc, *x, s, i, *place),
        Cmd::Put { s, i, v, place } => put(alloc, s, i, v, *place),
        Cmd::Get64 { x, s, place } => get_word(alloc, *x, s, *place),
        Cmd::Put64 { s, v, place } => put_word(alloc, s, v, *place),
        Cmd::Sub { x, s, a, b, place } => part(alloc, *x, s, a, b, *place),
        Cmd::Append {
            x,
            item,
            s,
            v,
            place,
        } => append(alloc, *x, *item, s, v, *place),
        Cmd::NewMap { x, place } => Ok(Cmd::NewMap {
            x: *x,
            place: *place,
        }),
        Cmd::MapGet { x, ok, m, k, place } => map_get(alloc, *x, *ok, m, k, *place),
        Cmd::MapPut { m, k, v, place } => map_put(alloc, m, k, v, *place),
        Cmd::MapDelete { m, k, place } => map_delete(alloc, m, k, *place),
        Cmd::NewMutex { x, place } => Ok(Cmd::NewMutex {
            x: *x,
            place: *place,
        }),
        Cmd::Lock { m, place } => lock(alloc, m, *place),
        Cmd::Unlock { m, place } => unlock(alloc, m, *place),
        Cmd::DiskRead { x, a, place } => disk_read(alloc, *x, a, *place),
        Cmd::DiskRead2 { x, ok, d, a, place } => disk_read_of(alloc, *x, *ok, d, a, *place),
        Cmd::DiskWrite { d, a, s, place } => disk_write(alloc, d, a, s, *place),
        Cmd::DiskSize { x, place } => Ok(Cmd::DiskSize {
            x: *x,
            place: *place,
        }),
        Cmd::Call { xs, f, es, place } => call(alloc, xs.as_slice(), *f, es.as_slice(), *place),
        Cmd::Spawn { f, es, place } => spawn(alloc, *f, es.as_slice(), *place),
        Cmd::If { e, place, .. } => branch(alloc, e, *place),
        Cmd::Loop { place, .. } => Ok(repetition(alloc, *place)),
        Cmd::Break { place } => Ok(Cmd::Break { place: *place }),
        Cmd::Continue { place } => Ok(Cmd::Continue { place: *place }),
        Cmd::Return { es, place } => give_back(alloc, es.as_slice(), *place),
    }
}

/// The place of a command's statement.
#[tactic(auto, using(gv_lang::proofs::Trees::commands))]
pub(crate) fn place(c: &Cmd) -> Place
    ensures { result ≡ place_of (tree_of c.now) }
{
    match c {
        Cmd::Let { place, .. } | Cmd::Div { place, .. } | Cmd::Rem { place, .. } => *place,
        Cmd::Len { place, .. } | Cmd::New { place, .. } | Cmd::Load { place, .. } => *place,
        Cmd::Store { place, .. } | Cmd::MakeSlice { place, .. } | Cmd::At { place, .. } => *place,
        Cmd::Put { place, .. } | Cmd::Get64 { place, .. } | Cmd::Put64 { place, .. } => *place,
        Cmd::Sub { place, .. } | Cmd::Append { place, .. } | Cmd::NewMap { place, .. } => *place,
        Cmd::MapGet { place, .. } | Cmd::MapPut { place, .. } => *place,
        Cmd::MapDelete { place, .. } | Cmd::NewMutex { place, .. } => *place,
        Cmd::Lock { place, .. } | Cmd::Unlock { place, .. } => *place,
        Cmd::DiskRead { place, .. } | Cmd::DiskRead2 { place, .. } => *place,
        Cmd::DiskWrite { place, .. } | Cmd::DiskSize { place, .. } => *place,
        Cmd::Call { place, .. } | Cmd::Spawn { place, .. } | Cmd::If { place, .. } => *place,
        Cmd::Loop { place, .. } | Cmd::Break { place } | Cmd::Continue { place } => *place,
        Cmd::Return { place, .. } => *place,
    }
}

/// One number.
pub(crate) fn one(alloc: Global, x: u32) -> Result<List<u32>, NoMemory>
    ensures { IfOk result (λ xs. xs ≡ x ∷ []) }
{
    let mut xs = List::new(alloc);
    xs.push(x)?;
    Ok(xs)
}

/// Two numbers.
pub(crate) fn both(alloc: Global, x: u32, y: u32) -> Result<List<u32>, NoMemory>
    ensures { IfOk result (λ xs. xs ≡ x ∷ y ∷ []) }
{
    let mut xs = List::new(alloc);
    xs.push(x)?;
    xs.push(y)?;
    Ok(xs)
}

/// The locals that a command sets, in their order.
#[tactic(auto, using(gv_lang::proofs::Trees::commands))]
pub(crate) fn targets(alloc: Global, c: &Cmd) -> Result<List<u32>, NoMemory>
    ensures { IfOk result (λ xs. xs ≡ targets_of (tree_of c.now)) }
{
    match c {
        Cmd::Let { x, .. } | Cmd::Div { x, .. } | Cmd::Rem { x, .. } => one(alloc, *x),
        Cmd::Len { x, .. } | Cmd::New { x, .. } | Cmd::Load { x, .. } => one(alloc, *x),
        Cmd::MakeSlice { x, .. } | Cmd::At { x, .. } | Cmd::Get64 { x, .. } => one(alloc, *x),
        Cmd::Sub { x, .. } | Cmd::Append { x, .. } | Cmd::NewMap { x, .. } => one(alloc, *x),
        Cmd::NewMutex { x, .. } | Cmd::DiskRead { x, .. } => one(alloc, *x),
        Cmd::DiskSize { x, .. } => one(alloc, *x),
        Cmd::MapGet { x, ok, .. } | Cmd::DiskRead2 { x, ok, .. } => both(alloc, *x, *ok),
        Cmd::Call { xs, .. } => Ok(List::from_vec(Vec::from_slice(alloc, xs.as_slice())?)),
        Cmd::Store { .. } | Cmd::Put { .. } | Cmd::Put64 { .. } => Ok(List::new(alloc)),
        Cmd::MapPut { .. } | Cmd::MapDelete { .. } => Ok(List::new(alloc)),
        Cmd::Lock { .. } | Cmd::Unlock { .. } | Cmd::DiskWrite { .. } => Ok(List::new(alloc)),
        Cmd::Spawn { .. } | Cmd::If { .. } | Cmd::Loop { .. } => Ok(List::new(alloc)),
        Cmd::Break { .. } | Cmd::Continue { .. } | Cmd::Return { .. } => Ok(List::new(alloc)),
    }
}
