//! What is called.

ghost use Rattle.std.specs.Prelude.{◌≡◌, Option as Maybe, ℕ, Some, None, [], ◌∷◌};
ghost use Rattle.gv_gotypes.specs.Types.{Fault as FaultAt};
ghost use Rattle.gv_gosyntax.specs.declared.generated.gosyntax_acts.Part.TheVariants.{Expr as PExpr};
ghost use Rattle.gv_gosyntax.specs.declared.lexeme.Lexeme.{Lexeme as AnyLexeme};
ghost use Rattle.gv_gosyntax.specs.declared.tree.Expr.{Expr as AnyExpr};
ghost use Rattle.gv_gosyntax.specs.Nodes as tree;
ghost use Rattle.gv_gonodes.specs.Expr.{IsSomeExpr};
ghost use Rattle.gv_gotypes.specs.Calls as spec;
ghost use Rattle.gv_gotypes.specs.Expressions as expr;
ghost use Rattle.gv_gotypes.specs.Places as place;
ghost use Rattle.gv_gotypes.specs.Members.{Member as AnyMember};
ghost use Rattle.gv_gotypes.specs.Scopes as scope;
ghost use Rattle.gv_gotypes.specs.Trees.{Expr as PlainExpr, Name as NameTree, Select as SelectTree, expr_of};
ghost use Rattle.gv_gotyped.specs.Operands.{IsOperand};
ghost use Rattle.gv_gotyped.specs.First.{first_of};
ghost use Rattle.gv_goscopes.specs.Called.{IsCalled};
ghost use Rattle.gv_gocalls.specs.Answers.{IsThisCallee, IsCallee};

use crate::answers::Callee;
use crate::forms::{Form, form_at};
use gv_base::Code;
use gv_goscopes::{Called, Scopes};
use gv_gosyntax::{Lexeme, Node};
use gv_gotyped::{Fault, Operand, earliest, in_place};
use gv_gotypes::{Entity, Library};
use gv_gowalk::{entity_of, library_at, operand_at};
use gv_operands::{Class, GoType, Part, Want};

fn refused<'a>(start: u32, at: u32, code: Code) -> Callee<'a>
    ensures { IsThisCallee result start (spec.no_callee (FaultAt at code ∷ [])) }
{
    Callee {
        start,
        signature: None,
        first: Some(Fault { start: at, code }),
    }
}

fn entity_callee<'a, N: Scopes>(names: &'a N, at: u32, entity: Option<Entity>) -> Callee<'a>
    ensures { IsThisCallee result at (spec.entity_callee (N.env names.now).declared at entity) }
{
    match entity {
        Some(Entity::ProcedureOf(number)) => {
            return Callee {
                start: at,
                signature: names.procedure(number),
                first: None,
            };
        }
        Some(_) => return refused(at, at, Code::WrongType),
        None => return refused(at, at, Code::Undeclared),
    }
}

// A name is called.
fn named_callee<'a, N: Scopes>(names: &'a N, name: Lexeme) -> Callee<'a>
    ensures { IsCallee (N.env names.now) (NameTree name) result }
{
    let entity = entity_of(names, name);
    entity_callee(names, name.start, entity)
}

// What stands behind a point is called.
fn member_callee<'a>(member: Option<Called<'a>>, name: u32, start: u32) -> Callee<'a>
    ensures { (m : Maybe AnyMember) → IsCalled member.entry m → IsThisCallee result start (spec.member_callee m name start) }
{
    match member {
        Some(Called::By(signature)) => {
            return Callee {
                start,
                signature: Some(signature),
                first: None,
            };
        }
        Some(Called::Other) => return refused(start, start, Code::WrongType),
        None => return refused(start, name, Code::Undeclared),
    }
}

fn class_callee<'a, N: Scopes>(names: &'a N, class: Class, name: Lexeme, start: u32) -> Callee<'a>
    ensures { IsThisCallee result start (spec.class_callee (N.env names.now) class name start) }
{
    match class {
        Class::Run(GoType::Pointer(base)) => {
            let member = names.called_of(base, name);
            member_callee(member, name.start, start)
        }
        _ => refused(start, start, Code::WrongType),
    }
}

// A method of an operand that is something.
fn something_callee<'a, N: Scopes>(
    names: &'a N,
    part: Part,
    class: Class,
    name: Lexeme,
) -> Callee<'a>
    requires { part.class ≡ Some class }
    ensures { IsThisCallee result part.spot.start (spec.method_callee (N.env names.now) part.spot name (Some class)) }
{
    match in_place(part, Want::Unknown) {
        Some(fault) => Callee {
            start: part.spot.start,
            signature: None,
            first: Some(fault),
        },
        None => class_callee(names, class, name, part.spot.start),
    }
}

fn method_callee<'a, N: Scopes>(names: &'a N, part: Part, name: Lexeme) -> Callee<'a>
    ensures { IsThisCallee result part.spot.start (spec.method_callee (N.env names.now) part.spot name part.class) }
{
    match part.class {
        Some(class) => something_callee(names, part, class, name),
        None => Callee {
            start: part.spot.start,
            signature: None,
            first: None,
        },
    }
}

// A method of an operand that names no package.
fn operand_callee<'a, N: Scopes>(names: &'a N, whole: Operand, name: Lexeme) -> Callee<'a>
    ensures { (e : PlainExpr) → IsOperand (N.env names.now) e whole → expr.library_of (N.env names.now) e ≡ None
        → IsCallee (N.env names.now) (SelectTree e name) result }
{
    let callee = method_callee(names, whole.part, name);
    Callee {
        start: callee.start,
        signature: callee.signature,
        first: earliest(whole.first, callee.first),
    }
}

// A member of a package.
fn library_callee<'a, N: Scopes>(
    names: &'a N,
    word: Lexeme,
    library: Library,
    name: Lexeme,
) -> Callee<'a>
    ensures { expr.library_of (N.env names.now) (NameTree word) ≡ Some library → IsCallee (N.env names.now) (SelectTree (NameTree word) name) result }
{
    let member = names.called_of_library(library, name);
    member_callee(member, name.start, word.start)
}

// `e.NAME` is called.
fn select_callee<'a, N: Scopes>(
    names: &'a N,
    nodes: &[Node],
    inner: usize,
    name: Lexeme,
) -> Callee<'a>
    requires formed { tree.IsFormed nodes.now }
    requires some { IsSomeExpr nodes.now inner }
    ensures { (e : AnyExpr) → tree.IsPartAt nodes.now inner (PExpr e) → IsCallee (N.env names.now) (SelectTree (expr_of e) name) result }
{
    match library_at(names, nodes, inner) {
        Some((word, library)) => library_callee(names, word, library, name),
        None => {
            let whole = operand_at(names, nodes, inner);
            operand_callee(names, whole, name)
        }
    }
}

/// What is called by the operand whose node is at a place, where these names are seen.
pub fn callee_at<'a, N: Scopes>(names: &'a N, nodes: &[Node], at: usize) -> Callee<'a>
    requires formed { tree.IsFormed nodes.now }
    requires some { IsSomeExpr nodes.now at }
    ensures { (e : AnyExpr) → tree.IsPartAt nodes.now at (PExpr e) → IsCallee (N.env names.now) (expr_of e) result }
{
    match form_at(nodes, at) {
        Form::Name(name) => named_callee(names, name),
        Form::Member(inner, name) => select_callee(names, nodes, inner, name),
        _ => {
            let start = operand_at(names, nodes, at).part.spot.start;
            refused(start, start, Code::WrongType)
        }
    }
}
