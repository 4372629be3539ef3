//! Operands of operands: each function makes of what is known of the parts what is known of the whole.

ghost use Rattle.std.specs.Prelude.{◌≡◌, Some, None, option_map, option_and_then};
ghost use Rattle.gv_gosyntax.specs.declared.lexeme.Lexeme.{Lexeme as AnyLexeme};
ghost use Rattle.gv_gotypes.specs.declared.names.Library.{Library};
ghost use Rattle.gv_gotypes.specs.Scopes.{Env, name_in};
ghost use Rattle.gv_gotypes.specs.Members.{library_member};
ghost use Rattle.gv_gotypes.specs.Expressions as expr;
ghost use Rattle.gv_gotypes.specs.Trees as tree;
ghost use Rattle.gv_gotyped.specs.First.{earliest as earliest_of};
ghost use Rattle.gv_gotyped.specs.First.{IsMade};
ghost use Rattle.gv_gotyped.specs.Operands.{IsOperand};
ghost use Rattle.gv_gotyped.specs.Parts.{IsBound, IsValueOf, IsMember, IsMemberOf};

use crate::fault::{Fault, earliest};
use crate::forms::{binary_made, convert_made, index_made, slice_made, unary_made};
use crate::members::{Member, member_made};
use crate::outcomes::{Made, Operand};
use crate::places::{refusal, wrong_type};
use gv_gosyntax::Lexeme;
use gv_gosyntax::generated::gosyntax_table::{CLASS_FALSE, CLASS_NUMBER, CLASS_TRUE};
use gv_operands::{Class, GoType, Kind, Part, Spot, Value};

// What is made of parts, behind the fault of these that is told. It begins here, with no parentheses of its own.
fn behind(start: u32, first: Option<Fault>, made: Made) -> Operand
    ensures part { result.part ≡ record { spot = record { start = start; inner = start }; class = made.class } }
    ensures first { result.first ≡ earliest_of first made.first }
{
    let spot = Spot {
        start,
        inner: start,
    };
    Operand {
        part: Part {
            spot,
            class: made.class,
        },
        first: earliest(first, made.first),
    }
}

// What is made of no parts.
pub(crate) fn made_at(start: u32, made: Made) -> Operand
    ensures part { result.part ≡ record { spot = record { start = start; inner = start }; class = made.class } }
    ensures first { result.first ≡ made.first }
{
    let spot = Spot {
        start,
        inner: start,
    };
    Operand {
        part: Part {
            spot,
            class: made.class,
        },
        first: made.first,
    }
}

/// `( e )`
pub fn paren_operand(opening: Lexeme, inner: Operand) -> Operand
    ensures { (env : Env) (e : tree.Expr) → IsOperand env e inner → IsOperand env (tree.Paren opening e) result }
{
    let spot = Spot {
        start: opening.start,
        inner: inner.part.spot.inner,
    };
    Operand {
        part: Part {
            spot,
            class: inner.part.class,
        },
        first: inner.first,
    }
}

/// `len( e )`, `uint64( e )` or `byte( e )`
pub fn convert_operand(word: Lexeme, inner: Operand) -> Operand
    ensures { (env : Env) (e : tree.Expr) → IsOperand env e inner → IsOperand env (tree.Convert word e) result }
{
    let made = convert_made(word, inner.part);
    behind(word.start, inner.first, made)
}

/// `! e` or `^ e`
pub fn unary_operand(sign: Lexeme, inner: Operand) -> Operand
    ensures { (env : Env) (e : tree.Expr) → IsOperand env e inner → IsOperand env (tree.Unary sign e) result }
{
    let made = unary_made(sign, inner.part);
    behind(sign.start, inner.first, made)
}

/// `a SIGN b`
pub fn binary_operand(left: Operand, sign: Lexeme, right: Operand) -> Operand
    ensures { (env : Env) (a b : tree.Expr) → IsOperand env a left → IsOperand env b right → IsOperand env (tree.Binary a sign b) result }
{
    let made = binary_made(sign, left.part, right.part);
    let first = earliest(left.first, right.first);
    behind(left.part.spot.start, first, made)
}

/// `a[b]`
pub fn index_operand(whole: Operand, index: Operand) -> Operand
    ensures { (env : Env) (a b : tree.Expr) → IsOperand env a whole → IsOperand env b index → IsOperand env (tree.Index a b) result }
{
    let made = index_made(whole.part, index.part);
    let first = earliest(whole.first, index.first);
    behind(whole.part.spot.start, first, made)
}

// A bound as a part, and the fault in it that is told.
fn part_in(bound: Option<Operand>) -> Option<Part>
    ensures { result ≡ option_map (λ known. known.part) bound }
{
    match bound {
        Some(known) => Some(known.part),
        None => None,
    }
}

fn first_in(bound: Option<Operand>) -> Option<Fault>
    ensures { result ≡ option_and_then (λ known. known.first) bound }
{
    match bound {
        Some(known) => known.first,
        None => None,
    }
}

/// `e[a:b]`, with the bounds that are there
pub fn slice_operand(whole: Operand, low: Option<Operand>, high: Option<Operand>) -> Operand
    ensures { (env : Env) (e : tree.Expr) (a b : tree.Bound) → IsOperand env e whole → IsBound env a low → IsBound env b high
        → IsOperand env (tree.Slice e a b) result }
{
    let made = slice_made(whole.part, part_in(low), part_in(high));
    let below = first_in(low);
    let above = first_in(high);
    let bounds = earliest(below, above);
    let first = earliest(whole.first, bounds);
    behind(whole.part.spot.start, first, made)
}

// What a literal is.
fn literal_class(class: u8, value: Option<Value>) -> Class
    ensures { (env : Env) (t : AnyLexeme) → t.class ≡ class → IsValueOf env t value → result ≡ expr.literal_class env.source t }
{
    match class {
        CLASS_NUMBER => Class::Fixed(Kind::Untyped, value),
        CLASS_TRUE => Class::Fixed(Kind::OfBool, Some(Value::Truth(true))),
        CLASS_FALSE => Class::Fixed(Kind::OfBool, Some(Value::Truth(false))),
        _ => Class::Nil,
    }
}

/// A number with its value, `true`, `false` or `nil`.
pub fn literal_operand(token: Lexeme, value: Option<Value>) -> Operand
    ensures { (env : Env) → IsValueOf env token value → IsOperand env (tree.Constant token) result }
{
    let class = literal_class(token.class, value);
    made_at(
        token.start,
        Made {
            class: Some(class),
            first: None,
        },
    )
}

/// `PACKAGE.NAME`, where the word stands for a package: `member` is what that has by the name.
pub fn library_operand(word: Lexeme, name: Lexeme, member: Option<Member>) -> Operand
    ensures { (env : Env) (l : Library) → expr.library_of env (tree.Name word) ≡ Some l
        → IsMember member (library_member l (name_in env.source name)) → IsOperand env (tree.Select (tree.Name word) name) result }
{
    made_at(word.start, member_made(member, name.start, word.start))
}

// A member of an operand that is something.
fn pointer_made(whole: Part, class: Class, name: Lexeme, member: Option<Member>) -> Made
    ensures { (env : Env) → IsMemberOf env (Some class) name member → IsMade result (expr.class_member env class name whole.spot.start) }
{
    match class {
        Class::Run(GoType::Pointer(_)) => member_made(member, name.start, whole.spot.start),
        _ => Made {
            class: None,
            first: wrong_type(whole.spot.start),
        },
    }
}

fn select_something(whole: Part, class: Class, name: Lexeme, member: Option<Member>) -> Made
    ensures { (env : Env) → IsMemberOf env (Some class) name member → IsMade result (expr.select_outcome env whole.spot name (Some class)) }
{
    match refusal(whole.spot, class) {
        Some(fault) => Made {
            class: None,
            first: Some(fault),
        },
        None => pointer_made(whole, class, name, member),
    }
}

fn select_made(whole: Part, name: Lexeme, member: Option<Member>) -> Made
    ensures { (env : Env) → IsMemberOf env whole.class name member → IsMade result (expr.select_outcome env whole.spot name whole.class) }
{
    match whole.class {
        Some(class) => select_something(whole, class, name, member),
        None => Made {
            class: None,
            first: None,
        },
    }
}

/// `e.NAME`, where e names no package: `member` is what stands behind the point, where e points to something.
pub fn select_operand(whole: Operand, name: Lexeme, member: Option<Member>) -> Operand
    ensures { (env : Env) (e : tree.Expr) → IsOperand env e whole → expr.library_of env e ≡ None
        → IsMemberOf env whole.part.class name member → IsOperand env (tree.Select e name) result }
{
    let made = select_made(whole.part, name, member);
    behind(whole.part.spot.start, whole.first, made)
}
