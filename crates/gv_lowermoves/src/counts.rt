//! `x++`, `x--` and `x op= e`.

ghost use Rattle.std.specs.Prelude.{◌≡◌, [], ◌∷◌, Some, None, IfOk, length};
ghost use Rattle.gv_gosyntax.specs.declared.generated.gosyntax_acts.Part.TheVariants.{Expr as PExpr};
ghost use Rattle.gv_gosyntax.specs.declared.tree.Expr.{Expr as AnyExpr};
ghost use Rattle.gv_gosyntax.specs.Nodes as tree;
ghost use Rattle.gv_gonodes.specs.Expr.{IsSomeExpr};
ghost use Rattle.gv_gotypes.specs.Trees.{expr_of};
ghost use Rattle.gv_lang.specs.Plain.{expr_of as pure_of};
ghost use Rattle.gv_lang.specs.Tree as lang;
ghost use Rattle.gv_operands.specs.declared.types.GoType.TheVariants as types;
ghost use Rattle.gv_lowering.specs.Operands as lower;
ghost use Rattle.gv_lowering.specs.Statements as statements;
ghost use Rattle.gv_lowerops.specs.Tails.{IsReadBehind};
ghost use Rattle.gv_lowerops.specs.declared.draft.Draft.{Draft as AnyDraft};
ghost use Rattle.gv_lowermoves.specs.Moves.{IsMadeBehind, IsBefore, updated_by};

use crate::lefts::target_at;
use crate::locals::Target;
use crate::sets::set;
use gv_base::{NoMemory, Place};
use gv_goscopes::Scopes;
use gv_gosyntax::Node;
use gv_gosyntax::generated::gosyntax_table::{
    CLASS_AMP, CLASS_AMP_ASSIGN, CLASS_AMP_CARET, CLASS_AMP_CARET_ASSIGN, CLASS_BAR,
    CLASS_BAR_ASSIGN, CLASS_CARET, CLASS_CARET_ASSIGN, CLASS_INCREMENT, CLASS_MINUS,
    CLASS_MINUS_ASSIGN, CLASS_PERCENT, CLASS_PERCENT_ASSIGN, CLASS_PLUS, CLASS_PLUS_ASSIGN,
    CLASS_SHIFT_LEFT, CLASS_SHIFT_LEFT_ASSIGN, CLASS_SHIFT_RIGHT, CLASS_SHIFT_RIGHT_ASSIGN,
    CLASS_SLASH, CLASS_SLASH_ASSIGN, CLASS_STAR, CLASS_STAR_ASSIGN,
};
use gv_lang::{LocalKind, Pure};
use gv_lowerops::{Draft, Fields, Places, Read, Tail, operated, read_at};
use gv_operands::GoType;
use std::alloc::Global;

// The operator of `op=`.
fn updating(sign: u8) -> u8
    ensures { result ≡ lower.chosen statements.updating CLASS_PLUS sign }
{
    match sign {
        CLASS_PLUS_ASSIGN => CLASS_PLUS,
        CLASS_MINUS_ASSIGN => CLASS_MINUS,
        CLASS_BAR_ASSIGN => CLASS_BAR,
        CLASS_CARET_ASSIGN => CLASS_CARET,
        CLASS_STAR_ASSIGN => CLASS_STAR,
        CLASS_SLASH_ASSIGN => CLASS_SLASH,
        CLASS_PERCENT_ASSIGN => CLASS_PERCENT,
        CLASS_SHIFT_LEFT_ASSIGN => CLASS_SHIFT_LEFT,
        CLASS_SHIFT_RIGHT_ASSIGN => CLASS_SHIFT_RIGHT,
        CLASS_AMP_ASSIGN => CLASS_AMP,
        CLASS_AMP_CARET_ASSIGN => CLASS_AMP_CARET,
        _ => CLASS_PLUS,
    }
}

fn counting(sign: u8) -> u8
    ensures { result ≡ statements.counting sign }
{
    if sign == CLASS_INCREMENT {
        CLASS_PLUS
    } else {
        CLASS_MINUS
    }
}

// What is counted, before anything is made.
fn before_at<N: Scopes + Fields, P: Places>(
    alloc: Global,
    names: &N,
    places: &P,
    place: Place,
    nodes: &[Node],
    at: usize,
    draft: Draft,
) -> Result<Read, NoMemory>
    requires formed { tree.IsFormed nodes.now }
    requires some { IsSomeExpr nodes.now at }
    ensures { (e : AnyExpr) → tree.IsPartAt nodes.now at (PExpr e)
        → IfOk result (λ made. IsBefore (P.context places.now) place (N.env names.now) draft (expr_of e) made) }
{
    let mark = draft.mark();
    let made = read_at(alloc, names, places, place, nodes, at, None, draft)?;
    Ok(Read {
        draft: made.read.draft.back_to(mark),
        value: made.read.value,
    })
}

// A target gets what it was with an operand.
fn updated<P: Places>(
    alloc: Global,
    places: &P,
    place: Place,
    target: Target,
    sign: u8,
    before: Pure,
    right: Read,
) -> Result<Draft, NoMemory>
    ensures { (old : AnyDraft) (r : lower.Read) → IsReadBehind old right r
        → IfOk result (λ new. IsMadeBehind old new (updated_by (P.context places.now) place (length old.temps.items) target sign (pure_of before) r)) }
{
    let last = operated(alloc, sign, before, right.value)?;
    let tail = Tail {
        draft: right.draft,
        last,
    };
    let targets = [target];
    let new = set(alloc, places, place, &targets, tail)?;
    Ok(new)
}

/// What `x++` or `x--` becomes, by the node of x, where these names are seen.
pub fn counted_at<N: Scopes + Fields, P: Places>(
    alloc: Global,
    names: &N,
    places: &P,
    place: Place,
    nodes: &[Node],
    at: usize,
    sign: u8,
    draft: Draft,
) -> Result<Draft, NoMemory>
    requires formed { tree.IsFormed nodes.now }
    requires some { IsSomeExpr nodes.now at }
    ensures { (e : AnyExpr) → tree.IsPartAt nodes.now at (PExpr e) → let c = P.context places.now in
        IfOk result (λ new. IsMadeBehind draft new (statements.updated c place (N.env names.now) (length draft.temps.items) (expr_of e)
        (statements.counting sign) (record { cmds = []; temps = []; value = lang.Number 1 }))) }
{
    let target = target_at(names, places, nodes, at, false, LocalKind::Word)?;
    let before = before_at(alloc, names, places, place, nodes, at, draft)?;
    let one = Read {
        draft: before.draft,
        value: Pure::Word(1),
    };
    let sign = counting(sign);
    let new = updated(alloc, places, place, target, sign, before.value, one)?;
    Ok(new)
}

/// What `x op= e` becomes, by the nodes of x and e, where these names are seen.
pub fn updated_at<N: Scopes + Fields, P: Places>(
    alloc: Global,
    names: &N,
    places: &P,
    place: Place,
    nodes: &[Node],
    at: usize,
    sign: u8,
    right: usize,
    draft: Draft,
) -> Result<Draft, NoMemory>
    requires formed { tree.IsFormed nodes.now }
    requires some { IsSomeExpr nodes.now at }
    requires right { IsSomeExpr nodes.now right }
    ensures { (e f : AnyExpr) → tree.IsPartAt nodes.now at (PExpr e) → tree.IsPartAt nodes.now right (PExpr f)
        → let c = P.context places.now in let env = N.env names.now in let n = length draft.temps.items in
        IfOk result (λ new. IsMadeBehind draft new (statements.updated c place env n (expr_of e)
        (lower.chosen statements.updating CLASS_PLUS sign) (lower.read c place env (expr_of f) (Some types.Word) n))) }
{
    let target = target_at(names, places, nodes, at, false, LocalKind::Word)?;
    let before = before_at(alloc, names, places, place, nodes, at, draft)?;
    let value = before.value;
    let word = Some(GoType::Word);
    let made = read_at(
        alloc,
        names,
        places,
        place,
        nodes,
        right,
        word,
        before.draft,
    )?;
    let sign = updating(sign);
    let new = updated(alloc, places, place, target, sign, value, made.read)?;
    Ok(new)
}
