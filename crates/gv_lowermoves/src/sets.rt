//! Whole right sides that set their targets.

ghost use Rattle.std.specs.Prelude.{◌≡◌, ◌∷◌, [], ℕ, List as Seq, IfOk, length, map};
ghost use Rattle.gv_gosimple.specs.Lefts.{IsOnly};
ghost use Rattle.gv_lang.specs.Plain.{expr_of};
ghost use Rattle.gv_lang.specs.Tree as lang;
ghost use Rattle.gv_lang.specs.declared.program.LocalKind.{LocalKind as AnyKind};
ghost use Rattle.gv_lowering.specs.Operands as lower;
ghost use Rattle.gv_lowering.specs.Operands.{Context};
ghost use Rattle.gv_lowering.specs.Statements as statements;
ghost use Rattle.gv_lowermoves.specs.Moves.{IsMadeBehind, IsFound, AreGiven, target_in};
ghost use Rattle.gv_lowermoves.specs.declared.locals.Target.{Target as AnyTarget};
ghost use Rattle.gv_lowerops.specs.Tails.{IsTailBehind, read_by};
ghost use Rattle.gv_lowerops.specs.declared.draft.Draft.{Draft as AnyDraft};

use crate::locals::{Locals, Target, given, given_found};
use gv_base::{NoMemory, Place};
use gv_lang::{Cmd, Pure};
use gv_lowerops::{Draft, Last, Places, Reading, Tail};
use std::alloc::Global;

fn set_value<P: Places>(
    alloc: Global,
    places: &P,
    place: Place,
    targets: &[Target],
    draft: Draft,
    e: Pure,
) -> Result<Draft, NoMemory>
    ensures { let c = P.context places.now in let ts = map target_in targets.now in
        IfOk result (λ new. IsMadeBehind draft new (statements.set_last c place (length draft.temps.items) ts (lower.Value (expr_of e)))) }
{
    let made = given(alloc, places, targets, draft)?;
    let x = made.first();
    let cmd = Cmd::Let { x, e, place };
    let new = made.draft.with_command(cmd)?;
    Ok(new)
}

fn set_read<P: Places>(
    alloc: Global,
    places: &P,
    place: Place,
    targets: &[Target],
    draft: Draft,
    reading: Reading,
) -> Result<Draft, NoMemory>
    ensures { (k : AnyKind) → let c = P.context places.now in let ts = map target_in targets.now in
        IfOk result (λ new. IsMadeBehind draft new (statements.set_last c place (length draft.temps.items) ts (lower.Reads k (λ x. read_by reading x)))) }
{
    let made = given(alloc, places, targets, draft)?;
    let x = made.first();
    let cmd = reading.into_command(x, place);
    let new = made.draft.with_command(cmd)?;
    Ok(new)
}

// A read of a map sets the first two locals.
fn found(place: Place, made: Locals, m: Pure, k: Pure) -> Result<Draft, NoMemory>
    ensures { (c : Context) (old : AnyDraft) (ts : Seq AnyTarget) → AreGiven c old ts made
        → IfOk result (λ new. IsFound c place old ts (expr_of m) (expr_of k) new) }
{
    let x = made.first();
    let ok = made.second();
    let cmd = Cmd::MapGet { x, ok, m, k, place };
    let new = made.draft.with_command(cmd)?;
    Ok(new)
}

fn only_one(targets: &[Target]) -> Option<Target>
    ensures { IsOnly result targets.now }
{
    match targets {
        [target] => Some(*target),
        _ => None,
    }
}

fn set_found<P: Places>(
    alloc: Global,
    places: &P,
    place: Place,
    targets: &[Target],
    draft: Draft,
    m: Pure,
    k: Pure,
) -> Result<Draft, NoMemory>
    ensures { let c = P.context places.now in let ts = map target_in targets.now in
        IfOk result (λ new. IsMadeBehind draft new (statements.set_last c place (length draft.temps.items) ts (lower.ReadsMap (expr_of m) (expr_of k)))) }
{
    match only_one(targets) {
        Some(target) => {
            let made = given_found(alloc, places, target, draft)?;
            let new = found(place, made, m, k)?;
            Ok(new)
        }
        None => {
            let made = given(alloc, places, targets, draft)?;
            let new = found(place, made, m, k)?;
            Ok(new)
        }
    }
}

/// What sets these targets by a whole right side: its last read sets the first of them itself, and a read of a map the second one too, or a
/// temporary where there is none.
pub fn set<P: Places>(
    alloc: Global,
    places: &P,
    place: Place,
    targets: &[Target],
    tail: Tail,
) -> Result<Draft, NoMemory>
    ensures { (old : AnyDraft) (t : lower.Tail) → let c = P.context places.now in let ts = map target_in targets.now in IsTailBehind old tail t
        → IfOk result (λ new. IsMadeBehind old new (statements.set c place (length old.temps.items) ts t)) }
{
    let Tail { draft, last } = tail;
    match last {
        Last::Value(e) => {
            let new = set_value(alloc, places, place, targets, draft, e)?;
            Ok(new)
        }
        Last::Reads(_, reading) => {
            let new = set_read(alloc, places, place, targets, draft, reading)?;
            Ok(new)
        }
        Last::ReadsMap(m, k) => {
            let new = set_found(alloc, places, place, targets, draft, m, k)?;
            Ok(new)
        }
    }
}
