//! Which target a left side is.

ghost use Rattle.std.specs.Prelude.{◌≡◌, IfOk};
ghost use Rattle.gv_gosyntax.specs.declared.generated.gosyntax_acts.Part.TheVariants.{Expr as PExpr};
ghost use Rattle.gv_gosyntax.specs.declared.tree.Expr.{Expr as AnyExpr};
ghost use Rattle.gv_gosyntax.specs.Nodes as tree;
ghost use Rattle.gv_gonodes.specs.Expr.{IsSomeExpr};
ghost use Rattle.gv_gotypes.specs.Assigning as assigning;
ghost use Rattle.gv_gotypes.specs.Scopes.{entity_named, name_in};
ghost use Rattle.gv_gotypes.specs.Trees.{Name as NameTree, expr_of};
ghost use Rattle.gv_lowering.specs.Statements as statements;
ghost use Rattle.gv_lowermoves.specs.Moves.{target_in};

use crate::locals::Target;
use gv_base::NoMemory;
use gv_gocalls::{Form, form_at};
use gv_goscopes::Scopes;
use gv_gosyntax::{Lexeme, Node};
use gv_gotypes::Entity;
use gv_gowalk::entity_of;
use gv_lang::LocalKind;
use gv_lowerops::Places;

fn local_in<P: Places>(places: &P, entity: Option<Entity>) -> Result<u32, NoMemory>
    ensures { IfOk result (λ x. x ≡ statements.local_in (P.context places.now) entity) }
{
    match entity {
        Some(Entity::Variable(declared, _)) => places.variable(declared),
        _ => Ok(0),
    }
}

// The name isn't declared in the scope that was opened last.
fn is_new<N: Scopes>(names: &N, name: Lexeme) -> bool
    ensures { result ≡ assigning.is_new (N.env names.now) (NameTree name) }
{
    !names.is_blank(name) && !names.is_here(name)
}

fn named_target<N: Scopes, P: Places>(
    names: &N,
    places: &P,
    defines: bool,
    name: Lexeme,
    kind: LocalKind,
) -> Result<Target, NoMemory>
    ensures { IfOk result (λ t. target_in t ≡ statements.named_target (P.context places.now) (N.env names.now) defines name kind) }
{
    if names.is_blank(name) {
        return Ok(Target::Fresh(kind));
    }
    if defines && is_new(names, name) {
        return Ok(Target::Known(places.variable(name.start)?));
    }
    let entity = entity_of(names, name);
    Ok(Target::Known(local_in(places, entity)?))
}

/// The target that the left side is whose node is at a place, where what it gets is of this kind: of a name that is defined there its own
/// local, and of any other the one that is seen.
pub fn target_at<N: Scopes, P: Places>(
    names: &N,
    places: &P,
    nodes: &[Node],
    at: usize,
    defines: bool,
    kind: LocalKind,
) -> Result<Target, NoMemory>
    requires formed { tree.IsFormed nodes.now }
    requires some { IsSomeExpr nodes.now at }
    ensures { (e : AnyExpr) → tree.IsPartAt nodes.now at (PExpr e)
        → IfOk result (λ t. target_in t ≡ statements.target_of (P.context places.now) (N.env names.now) defines (expr_of e) kind) }
{
    match form_at(nodes, at) {
        Form::Name(name) => named_target(names, places, defines, name, kind),
        Form::Member(_, _) => Ok(Target::Fresh(kind)),
        Form::Item(_, _) => Ok(Target::Fresh(kind)),
        Form::Other => Ok(Target::Fresh(kind)),
    }
}
