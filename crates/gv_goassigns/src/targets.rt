//! Left sides.

ghost use Rattle.std.specs.Prelude.{◌≡◌, Option as Maybe, Some, None, [], ◌∷◌};
ghost use Rattle.gv_gosyntax.specs.declared.generated.gosyntax_acts.Part.TheVariants.{Expr as PExpr};
ghost use Rattle.gv_gosyntax.specs.declared.tree.Expr.{Expr as AnyExpr};
ghost use Rattle.gv_gosyntax.specs.Nodes as tree;
ghost use Rattle.gv_gonodes.specs.Expr.{IsSomeExpr};
ghost use Rattle.gv_operands.specs.Types.{own_type_of};
ghost use Rattle.gv_gotypes.specs.Assigning as spec;
ghost use Rattle.gv_gotypes.specs.Expressions as expr;
ghost use Rattle.gv_gotypes.specs.Members.{Member as AnyMember};
ghost use Rattle.gv_gotypes.specs.Places.{start_of, want};
ghost use Rattle.gv_gotypes.specs.Trees.{Expr as PlainExpr, Name as NameTree, Select as SelectTree, Index as IndexTree, expr_of};
ghost use Rattle.gv_gotypes.specs.Scopes.{Env};
ghost use Rattle.gv_gotypes.specs.Types.{Fault as FaultAt};
ghost use Rattle.gv_gotyped.specs.First.{first_of};
ghost use Rattle.gv_gotyped.specs.Operands.{IsOperand};
ghost use Rattle.gv_gotyped.specs.Parts.{IsMember};
ghost use Rattle.gv_goassigns.specs.Targets.{IsTarget};

use gv_base::Code;
use gv_gocalls::{Form, form_at, want_of};
use gv_goscopes::Scopes;
use gv_gosyntax::{Lexeme, Node};
use gv_gotyped::{Fault, Member, Operand, earliest, in_place};
use gv_gotypes::{Entity, Found, Library};
use gv_gowalk::{Names, library_at, operand_at};
use gv_operands::{Class, GoType, Part, Want, own_type};

/// A left side that was walked over: what it wants, and the fault in it that is told.
#[derive(Clone, Copy, Debug)]
pub struct Target {
    pub wants: Want,
    pub first: Option<Fault>,
}

pub(crate) fn refused(at: u32, code: Code) -> Target
    ensures { IsTarget result (spec.no_target (FaultAt at code ∷ [])) }
{
    Target {
        wants: Want::Unknown,
        first: Some(Fault { start: at, code }),
    }
}

// ---- names

fn found_target(at: u32, found: Found) -> Target
    ensures { IsTarget result (spec.entity_target at (Some found)) }
{
    match found.entity {
        Entity::Variable(_, kind) => Target {
            wants: want_of(kind),
            first: None,
        },
        _ => refused(at, Code::NotAssignable),
    }
}

fn entity_target(at: u32, found: Option<Found>) -> Target
    ensures { IsTarget result (spec.entity_target at found) }
{
    match found {
        Some(found) => found_target(at, found),
        None => refused(at, Code::Undeclared),
    }
}

/// A name on the left.
pub(crate) fn name_target<N: Scopes>(names: &N, name: Lexeme) -> Target
    ensures { IsTarget result (spec.name_target (N.env names.now) name) }
{
    if names.is_blank(name) {
        Target {
            wants: Want::AnyTyped,
            first: None,
        }
    } else {
        entity_target(name.start, names.found(name))
    }
}

// ---- members

fn member_target(member: Option<Member>, name: u32, start: u32) -> Target
    ensures { (m : Maybe AnyMember) → IsMember member m → IsTarget result (spec.member_target m name start) }
{
    match member {
        Some(Member::Field(kind)) => Target {
            wants: want_of(kind),
            first: None,
        },
        Some(_) => refused(start, Code::NotAssignable),
        None => refused(name, Code::Undeclared),
    }
}

fn class_target<N: Names>(names: &N, class: Class, name: Lexeme, start: u32) -> Target
    ensures { IsTarget result (spec.class_target (N.env names.now) class name start) }
{
    match class {
        Class::Run(GoType::Pointer(base)) => {
            let member = names.member(base, name);
            member_target(member, name.start, start)
        }
        _ => refused(start, Code::WrongType),
    }
}

// A field of an operand that is something.
fn something_target<N: Names>(names: &N, part: Part, class: Class, name: Lexeme) -> Target
    requires { part.class ≡ Some class }
    ensures { IsTarget result (spec.field_target (N.env names.now) part.spot name (Some class)) }
{
    match in_place(part, Want::Unknown) {
        Some(fault) => Target {
            wants: Want::Unknown,
            first: Some(fault),
        },
        None => class_target(names, class, name, part.spot.start),
    }
}

fn field_target<N: Names>(names: &N, part: Part, name: Lexeme) -> Target
    ensures { IsTarget result (spec.field_target (N.env names.now) part.spot name part.class) }
{
    match part.class {
        Some(class) => something_target(names, part, class, name),
        None => Target {
            wants: Want::Unknown,
            first: None,
        },
    }
}

// A field of an operand that names no package.
fn operand_target<N: Names>(names: &N, whole: Operand, name: Lexeme) -> Target
    ensures { (e : PlainExpr) → IsOperand (N.env names.now) e whole → expr.library_of (N.env names.now) e ≡ None
        → IsTarget result (spec.target (N.env names.now) (SelectTree e name)) }
{
    let target = field_target(names, whole.part, name);
    Target {
        wants: target.wants,
        first: earliest(whole.first, target.first),
    }
}

// A member of a package.
fn library_target<N: Names>(names: &N, word: Lexeme, library: Library, name: Lexeme) -> Target
    ensures { expr.library_of (N.env names.now) (NameTree word) ≡ Some library → IsTarget result (spec.target (N.env names.now) (SelectTree (NameTree word) name)) }
{
    let member = names.library_member(library, name);
    member_target(member, name.start, word.start)
}

// `e.NAME`
fn select_target<N: Names>(names: &N, nodes: &[Node], inner: usize, name: Lexeme) -> Target
    requires formed { tree.IsFormed nodes.now }
    requires some { IsSomeExpr nodes.now inner }
    ensures { (e : AnyExpr) → tree.IsPartAt nodes.now inner (PExpr e) → IsTarget result (spec.target (N.env names.now) (SelectTree (expr_of e) name)) }
{
    match library_at(names, nodes, inner) {
        Some((word, library)) => library_target(names, word, library, name),
        None => {
            let whole = operand_at(names, nodes, inner);
            operand_target(names, whole, name)
        }
    }
}

// ---- items

fn wanted_by(class: Option<Class>) -> Want
    ensures { result ≡ want (own_type_of class) }
{
    match class {
        Some(class) => want_of(own_type(class)),
        None => Want::Unknown,
    }
}

// `a[b]`
fn item_target(known: Operand) -> Target
    ensures { (env : Env) (a b : PlainExpr) → IsOperand env (IndexTree a b) known → IsTarget result (spec.target env (IndexTree a b)) }
{
    Target {
        wants: wanted_by(known.part.class),
        first: known.first,
    }
}

// ---- every left side

/// Where the operand begins whose node is at a place.
pub fn start_at<N: Names>(names: &N, nodes: &[Node], at: usize) -> u32
    requires formed { tree.IsFormed nodes.now }
    requires some { IsSomeExpr nodes.now at }
    ensures { (e : AnyExpr) → tree.IsPartAt nodes.now at (PExpr e) → result ≡ start_of (expr_of e) }
{
    operand_at(names, nodes, at).part.spot.start
}

/// The left side whose node is at a place, where it is the only one and nothing is defined.
pub fn target_at<N: Scopes>(names: &N, nodes: &[Node], at: usize) -> Target
    requires formed { tree.IsFormed nodes.now }
    requires some { IsSomeExpr nodes.now at }
    ensures { (e : AnyExpr) → tree.IsPartAt nodes.now at (PExpr e) → IsTarget result (spec.target (N.env names.now) (expr_of e)) }
{
    match form_at(nodes, at) {
        Form::Name(name) => name_target(names, name),
        Form::Member(inner, name) => select_target(names, nodes, inner, name),
        Form::Item(_, _) => item_target(operand_at(names, nodes, at)),
        Form::Other => refused(start_at(names, nodes, at), Code::NotAssignable),
    }
}
