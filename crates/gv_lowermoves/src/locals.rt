//! Locals that left sides set.

ghost use Rattle.std.specs.Prelude.{◌≡◌, [], ◌∷◌, IfOk};
ghost use Rattle.gv_lang.specs.declared.program.LocalKind.TheVariants as kinds;
ghost use Rattle.gv_lowering.specs.Statements as statements;
ghost use Rattle.gv_lowermoves.specs.declared.locals.Target.TheVariants as target_is;
ghost use Rattle.gv_lowermoves.specs.Moves.{AreGiven, IsGiven};

use gv_base::NoMemory;
use gv_lang::LocalKind;
use gv_lowerops::{Draft, Places};
use std::alloc::Global;

/// A left side that is a name: a local, by its place, or `_`, which is a temporary of some kind.
#[derive(Clone, Copy, Debug)]
pub enum Target {
    Known(u32),
    Fresh(LocalKind),
}

/// The locals that left sides set, in their order, and what was made before, with the temporaries among them in use.
#[derive(Drop)]
pub struct Locals {
    pub locals: Vec<u32>,
    pub draft: Draft,
}

/// The local that one left side sets.
#[derive(Drop)]
pub(crate) struct LocalOne {
    pub(crate) local: u32,
    pub(crate) draft: Draft,
}

fn given_one<P: Places>(places: &P, target: Target, draft: Draft) -> Result<LocalOne, NoMemory>
    ensures { IfOk result (λ one. IsGiven (P.context places.now) draft target one) }
{
    match target {
        Target::Known(local) => Ok(LocalOne { local, draft }),
        Target::Fresh(kind) => {
            let local = places.temporary(draft.temps.len())?;
            let draft = draft.with_temporary(kind)?;
            Ok(LocalOne { local, draft })
        }
    }
}

/// The locals that these left sides set, behind what was made before.
pub fn given<P: Places>(
    alloc: Global,
    places: &P,
    targets: &[Target],
    draft: Draft,
) -> Result<Locals, NoMemory>
    ensures { IfOk result (λ given. AreGiven (P.context places.now) draft targets.now given) }
{
    let mut locals = Vec::new(alloc);
    let mut draft = draft;
    let mut left = targets;
    while let [target, rest @ ..] = left {
        let one = given_one(places, *target, draft)?;
        locals.push(one.local)?;
        draft = one.draft;
        left = rest;
    }
    Ok(Locals { locals, draft })
}

/// Those of a left side, and of a temporary that tells whether a key was there.
pub(crate) fn given_found<P: Places>(
    alloc: Global,
    places: &P,
    target: Target,
    draft: Draft,
) -> Result<Locals, NoMemory>
    ensures { IfOk result (λ given. AreGiven (P.context places.now) draft (target ∷ target_is.Fresh kinds.Bool ∷ []) given) }
{
    let first = given_one(places, target, draft)?;
    let second = given_one(places, Target::Fresh(LocalKind::Bool), first.draft)?;
    let mut locals = Vec::new(alloc);
    locals.push(first.local)?;
    locals.push(second.local)?;
    Ok(Locals {
        locals,
        draft: second.draft,
    })
}

fn first_in(locals: &[u32]) -> u32
    ensures { result ≡ statements.first_of locals.now }
{
    match locals {
        [local, ..] => *local,
        [] => 0,
    }
}

fn second_in(locals: &[u32]) -> u32
    ensures { result ≡ statements.second_of locals.now }
{
    match locals {
        [_, rest @ ..] => first_in(rest),
        [] => 0,
    }
}

impl Locals {
    // The first, or the place 0 where there is none.
    pub(crate) fn first(&self) -> u32
        ensures { result ≡ statements.first_of self.now.locals.items }
    {
        first_in(self.locals.as_slice())
    }

    // The second, in the same way.
    pub(crate) fn second(&self) -> u32
        ensures { result ≡ statements.second_of self.now.locals.items }
    {
        second_in(self.locals.as_slice())
    }
}
