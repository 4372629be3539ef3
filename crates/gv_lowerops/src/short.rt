//! Operators between operands, of which `&&` and `||` may leave the right one alone.

ghost use Rattle.std.specs.Prelude.{◌≡◌, ◌++◌, ◌∷◌, [], ℕ, true, IfOk, length};
ghost use Rattle.gv_lang.specs.Plain.{expr_of, tree_of, body_of};
ghost use Rattle.gv_lang.specs.Tree as lang;
ghost use Rattle.gv_lang.specs.declared.program.LocalKind.TheVariants as kinds;
ghost use Rattle.gv_lowering.specs.Operands as lower;
ghost use Rattle.gv_lowerops.specs.Tails.{IsTailBehind, IsReadBehind};
ghost use Rattle.gv_lowerops.specs.Short.{IsSetAside, IsSteady};
ghost use Rattle.gv_lowerops.specs.declared.draft.Draft.{Draft as AnyDraft};

use crate::draft::{Draft, Read, Tail};
use crate::last::Last;
use crate::operators::operated;
use crate::places::Places;
use gv_base::{List, NoMemory, Place};
use gv_gosyntax::generated::gosyntax_table::{CLASS_AND_AND, CLASS_OR_OR};
use gv_lang::{Cmd, LocalKind, Pure};
use std::alloc::Global;

/// The operator may leave its right operand alone.
pub(crate) fn is_short(sign: u8) -> bool
    ensures { result ≡ lower.is_short sign }
{
    sign == CLASS_AND_AND || sign == CLASS_OR_OR
}

// One operand after the other.
pub(crate) fn both(alloc: Global, sign: u8, left: Pure, right: Read) -> Result<Tail, NoMemory>
    ensures { (old mid : AnyDraft) (r s : lower.Read) → IsReadBehind old (record { draft = mid; value = left }) r → IsReadBehind mid right s
        → IfOk result (λ made. IsTailBehind old made (lower.both sign r s)) }
{
    let last = operated(alloc, sign, left, right.value)?;
    Ok(Tail {
        draft: right.draft,
        last,
    })
}

/// A block begins behind the left operand of `&&` or `||`, with a temporary set aside for that: the commands before it, how many
/// temporaries are in use there, and the block.
#[derive(Drop)]
pub(crate) struct Aside {
    pub(crate) before: Vec<Cmd>,
    pub(crate) used: usize,
    pub(crate) block: Draft,
}

pub(crate) fn set_aside(alloc: Global, draft: Draft) -> Result<Aside, NoMemory>
    ensures { IfOk result (λ aside. IsSetAside draft aside.before.items aside.used aside.block) }
{
    let Draft {
        cmds: before,
        mut temps,
    } = draft;
    let used = temps.len();
    temps.push(LocalKind::Bool)?;
    let cmds = Vec::new(alloc);
    Ok(Aside {
        before,
        used,
        block: Draft { cmds, temps },
    })
}

// The commands that read the right operand, and set the local again, within an If on it.
#[tactic(auto, using(gv_lang::proofs::Trees::commands, gv_lang::proofs::Trees::expressions))]
fn guarded_if(alloc: Global, sign: u8, x: u32, right: Vec<Cmd>, place: Place) -> Cmd
    ensures { tree_of result ≡ lower.guarded_if sign (lang.LocalAt x) (body_of right.items) place }
{
    let e = Pure::Local(x);
    let right = List::from_vec(right);
    let nothing = List::new(alloc);
    if sign == CLASS_AND_AND {
        Cmd::If {
            e,
            then: right,
            other: nothing,
            place,
        }
    } else {
        Cmd::If {
            e,
            then: nothing,
            other: right,
            place,
        }
    }
}

#[tactic(auto, using(gv_lang::proofs::Trees::commands))]
fn let_command(x: u32, e: Pure, place: Place) -> Cmd
    ensures { tree_of result ≡ lang.Do (lang.Let x (expr_of e)) place }
{
    Cmd::Let { x, e, place }
}

// The right operand reads: it is taken within an If on the left one.
fn guarded<P: Places>(
    alloc: Global,
    places: &P,
    place: Place,
    sign: u8,
    left: Pure,
    before: Vec<Cmd>,
    used: usize,
    right: Read,
) -> Result<Tail, NoMemory>
    ensures { (old mid block : AnyDraft) (r s : lower.Read) → IsReadBehind old (record { draft = mid; value = left }) r
        → IsSetAside mid before.items used block → IsReadBehind block right s
        → IfOk result (λ made. IsTailBehind old made (lower.guarded (P.context places.now) place (length old.temps.items) sign r s)) }
{
    let x = places.temporary(used)?;
    let Read { draft, value } = right;
    let Draft { mut cmds, temps } = draft;
    cmds.push(let_command(x, value, place))?;
    let mut before = before;
    before.push(let_command(x, left, place))?;
    before.push(guarded_if(alloc, sign, x, cmds, place))?;
    Ok(Tail {
        draft: Draft {
            cmds: before,
            temps,
        },
        last: Last::Value(Pure::Local(x)),
    })
}

// The right operand reads nothing: no temporary is wanted.
fn unguarded(
    alloc: Global,
    sign: u8,
    left: Pure,
    before: Vec<Cmd>,
    right: Read,
) -> Result<Tail, NoMemory>
    requires { right.draft.cmds.items ≡ [] }
    ensures { (old mid block : AnyDraft) (used : ℕ) (r s : lower.Read) → IsReadBehind old (record { draft = mid; value = left }) r
        → IsSetAside mid before.items used block → IsReadBehind block right s → s.temps ≡ []
        → IfOk result (λ made. IsTailBehind old made (lower.both sign r s)) }
{
    let Read { draft, value } = right;
    let Draft { cmds: _, mut temps } = draft;
    let _aside = temps.pop();
    let last = operated(alloc, sign, left, value)?;
    Ok(Tail {
        draft: Draft {
            cmds: before,
            temps,
        },
        last,
    })
}

// Both operands of `&&` or `||`.
pub(crate) fn joined<P: Places>(
    alloc: Global,
    places: &P,
    place: Place,
    sign: u8,
    left: Pure,
    before: Vec<Cmd>,
    used: usize,
    right: Read,
) -> Result<Tail, NoMemory>
    requires { lower.is_short sign ≡ true }
    ensures { (old mid block : AnyDraft) (r : lower.Read) (s : ℕ → lower.Read) → IsReadBehind old (record { draft = mid; value = left }) r
        → IsSetAside mid before.items used block → IsReadBehind block right (s (length block.temps.items)) → IsSteady s
        → IfOk result (λ made. IsTailBehind old made (lower.joined (P.context places.now) place (length old.temps.items) sign r s)) }
{
    if right.draft.cmds.is_empty() {
        unguarded(alloc, sign, left, before, right)
    } else {
        guarded(alloc, places, place, sign, left, before, used, right)
    }
}
