//! Left sides of definitions, and those that stand beside another one.

ghost use Rattle.std.specs.Prelude.{◌≡◌, [], ◌∷◌};
ghost use Rattle.gv_base.specs.declared.answers.Code.TheVariants as code;
ghost use Rattle.gv_gosyntax.specs.declared.generated.gosyntax_acts.Part.TheVariants.{Expr as PExpr};
ghost use Rattle.gv_gosyntax.specs.declared.tree.Expr.{Expr as AnyExpr};
ghost use Rattle.gv_gosyntax.specs.Nodes as tree;
ghost use Rattle.gv_gonodes.specs.Expr.{IsSomeExpr};
ghost use Rattle.gv_gotypes.specs.Assigning as spec;
ghost use Rattle.gv_gotypes.specs.Trees.{Name as NameTree, Select as SelectTree, Index as IndexTree, expr_of};
ghost use Rattle.gv_gotypes.specs.Types.{Fault as FaultAt};
ghost use Rattle.gv_gotyped.specs.First.{first_of};
ghost use Rattle.gv_goassigns.specs.Targets.{IsTarget};

use crate::targets::{Target, name_target, refused, start_at};
use gv_base::Code;
use gv_gocalls::{Form, form_at};
use gv_goscopes::Scopes;
use gv_gosyntax::{Lexeme, Node};
use gv_gotyped::{Fault, earliest};
use gv_gowalk::{Names, library_at, operand_at};
use gv_operands::Want;

fn is_new_name<N: Scopes>(names: &N, name: Lexeme) -> bool
    ensures { result ≡ spec.is_new (N.env names.now) (NameTree name) }
{
    !names.is_blank(name) && !names.is_here(name)
}

fn is_old_name<N: Scopes>(names: &N, name: Lexeme) -> bool
    ensures { result ≡ spec.is_old (N.env names.now) (NameTree name) }
{
    !names.is_blank(name) && names.is_here(name)
}

/// The left side whose node is at a place is a name that is not declared in the scope that was opened last.
pub fn is_new_at<N: Scopes>(names: &N, nodes: &[Node], at: usize) -> bool
    requires formed { tree.IsFormed nodes.now }
    requires some { IsSomeExpr nodes.now at }
    ensures { (e : AnyExpr) → tree.IsPartAt nodes.now at (PExpr e) → result ≡ spec.is_new (N.env names.now) (expr_of e) }
{
    match form_at(nodes, at) {
        Form::Name(name) => is_new_name(names, name),
        Form::Member(_, _) => false,
        Form::Item(_, _) => false,
        Form::Other => false,
    }
}

/// It is a name that is declared there.
pub fn is_old_at<N: Scopes>(names: &N, nodes: &[Node], at: usize) -> bool
    requires formed { tree.IsFormed nodes.now }
    requires some { IsSomeExpr nodes.now at }
    ensures { (e : AnyExpr) → tree.IsPartAt nodes.now at (PExpr e) → result ≡ spec.is_old (N.env names.now) (expr_of e) }
{
    match form_at(nodes, at) {
        Form::Name(name) => is_old_name(names, name),
        Form::Member(_, _) => false,
        Form::Item(_, _) => false,
        Form::Other => false,
    }
}

// ---- left sides that are no names

fn member_parts<N: Names>(names: &N, nodes: &[Node], inner: usize, name: Lexeme) -> Option<Fault>
    requires formed { tree.IsFormed nodes.now }
    requires some { IsSomeExpr nodes.now inner }
    ensures { (e : AnyExpr) → tree.IsPartAt nodes.now inner (PExpr e) → result ≡ first_of (spec.left_parts (N.env names.now) (SelectTree (expr_of e) name)) }
{
    match library_at(names, nodes, inner) {
        Some(_) => None,
        None => operand_at(names, nodes, inner).first,
    }
}

fn item_parts<N: Names>(names: &N, nodes: &[Node], inner: usize, index: usize) -> Option<Fault>
    requires formed { tree.IsFormed nodes.now }
    requires inner { IsSomeExpr nodes.now inner }
    requires index { IsSomeExpr nodes.now index }
    ensures { (a b : AnyExpr) → tree.IsPartAt nodes.now inner (PExpr a) → tree.IsPartAt nodes.now index (PExpr b)
        → result ≡ first_of (spec.left_parts (N.env names.now) (IndexTree (expr_of a) (expr_of b))) }
{
    let whole = operand_at(names, nodes, inner);
    let item = operand_at(names, nodes, index);
    earliest(whole.first, item.first)
}

fn left_parts_at<N: Names>(names: &N, nodes: &[Node], at: usize) -> Option<Fault>
    requires formed { tree.IsFormed nodes.now }
    requires some { IsSomeExpr nodes.now at }
    ensures { (e : AnyExpr) → tree.IsPartAt nodes.now at (PExpr e) → result ≡ first_of (spec.left_parts (N.env names.now) (expr_of e)) }
{
    match form_at(nodes, at) {
        Form::Name(_) => None,
        Form::Member(inner, name) => member_parts(names, nodes, inner, name),
        Form::Item(inner, index) => item_parts(names, nodes, inner, index),
        Form::Other => None,
    }
}

fn not_assignable(start: u32) -> Option<Fault>
    ensures { result ≡ first_of (FaultAt start code.NotAssignable ∷ []) }
{
    Some(Fault {
        start,
        code: Code::NotAssignable,
    })
}

fn not_assignable_at<N: Names>(names: &N, nodes: &[Node], at: usize) -> Target
    requires formed { tree.IsFormed nodes.now }
    requires some { IsSomeExpr nodes.now at }
    ensures { (e : AnyExpr) → tree.IsPartAt nodes.now at (PExpr e) → IsTarget result (spec.not_assignable (N.env names.now) (expr_of e)) }
{
    let parts = left_parts_at(names, nodes, at);
    let own = not_assignable(start_at(names, nodes, at));
    Target {
        wants: Want::Unknown,
        first: earliest(parts, own),
    }
}

// ---- either

/// One of two left sides, where nothing is defined: a name alone may stand there.
pub fn pair_target_at<N: Scopes>(names: &N, nodes: &[Node], at: usize) -> Target
    requires formed { tree.IsFormed nodes.now }
    requires some { IsSomeExpr nodes.now at }
    ensures { (e : AnyExpr) → tree.IsPartAt nodes.now at (PExpr e) → IsTarget result (spec.pair_target (N.env names.now) (expr_of e)) }
{
    match form_at(nodes, at) {
        Form::Name(name) => name_target(names, name),
        Form::Member(_, _) => not_assignable_at(names, nodes, at),
        Form::Item(_, _) => not_assignable_at(names, nodes, at),
        Form::Other => not_assignable_at(names, nodes, at),
    }
}

fn defined_name<N: Scopes>(names: &N, fresh: bool, name: Lexeme) -> Target
    ensures { IsTarget result (spec.defined (N.env names.now) fresh (NameTree name)) }
{
    if !is_old_name(names, name) {
        Target {
            wants: Want::AnyTyped,
            first: None,
        }
    } else if fresh {
        name_target(names, name)
    } else {
        refused(name.start, Code::Twice)
    }
}

/// A left side of `:=`, where one of its left sides is new, or none is.
pub fn defined_at<N: Scopes>(names: &N, nodes: &[Node], at: usize, fresh: bool) -> Target
    requires formed { tree.IsFormed nodes.now }
    requires some { IsSomeExpr nodes.now at }
    ensures { (e : AnyExpr) → tree.IsPartAt nodes.now at (PExpr e) → IsTarget result (spec.defined (N.env names.now) fresh (expr_of e)) }
{
    match form_at(nodes, at) {
        Form::Name(name) => defined_name(names, fresh, name),
        Form::Member(_, _) => not_assignable_at(names, nodes, at),
        Form::Item(_, _) => not_assignable_at(names, nodes, at),
        Form::Other => not_assignable_at(names, nodes, at),
    }
}
