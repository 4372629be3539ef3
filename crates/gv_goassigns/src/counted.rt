//! `x++`, `x--` and `x op= e`.

ghost use Rattle.std.specs.Prelude.{◌≡◌, Some};
ghost use Rattle.gv_gosyntax.specs.declared.generated.gosyntax_acts.Part.TheVariants.{Expr as PExpr};
ghost use Rattle.gv_gosyntax.specs.declared.tree.Expr.{Expr as AnyExpr};
ghost use Rattle.gv_gosyntax.specs.Nodes as tree;
ghost use Rattle.gv_gonodes.specs.Expr.{IsSomeExpr};
ghost use Rattle.gv_gotypes.specs.Expressions as expr;
ghost use Rattle.gv_gotypes.specs.Scopes.{Env};
ghost use Rattle.gv_gotypes.specs.Statements as spec;
ghost use Rattle.gv_gotypes.specs.Trees.{Expr as PlainExpr, Update as UpdateTree, expr_of};
ghost use Rattle.gv_gotyped.specs.First.{first_of};
ghost use Rattle.gv_gotyped.specs.Operands.{IsOperand};
ghost use Rattle.gv_goassigns.specs.Targets.{IsTarget, is_blank_name, divisor_of};

use crate::targets::{Target, start_at, target_at};
use gv_base::Code;
use gv_gocalls::{Form, form_at, placed};
use gv_goscopes::Scopes;
use gv_gosyntax::generated::gosyntax_table::{
    CLASS_PERCENT, CLASS_PERCENT_ASSIGN, CLASS_SLASH, CLASS_SLASH_ASSIGN,
};
use gv_gosyntax::{Lexeme, Node};
use gv_gotyped::{Fault, Operand, earliest};
use gv_gowalk::{Names, operand_at};
use gv_operands::{Class, GoType, Part, Spot, Value, Want, same_type};

fn is_blank_at<N: Scopes>(names: &N, nodes: &[Node], at: usize) -> bool
    requires formed { tree.IsFormed nodes.now }
    requires some { IsSomeExpr nodes.now at }
    ensures { (e : AnyExpr) → tree.IsPartAt nodes.now at (PExpr e) → result ≡ is_blank_name (N.env names.now) (expr_of e) }
{
    match form_at(nodes, at) {
        Form::Name(name) => names.is_blank(name),
        Form::Member(_, _) => false,
        Form::Item(_, _) => false,
        Form::Other => false,
    }
}

// What is read and assigned.
fn counted_target<N: Scopes>(names: &N, nodes: &[Node], at: usize) -> Target
    requires formed { tree.IsFormed nodes.now }
    requires some { IsSomeExpr nodes.now at }
    ensures { (e : AnyExpr) → tree.IsPartAt nodes.now at (PExpr e) → IsTarget result (spec.counted_target (N.env names.now) (expr_of e)) }
{
    if is_blank_at(names, nodes, at) {
        Target {
            wants: Want::Unknown,
            first: operand_at(names, nodes, at).first,
        }
    } else {
        target_at(names, nodes, at)
    }
}

fn word_fault(start: u32, wants: Want) -> Option<Fault>
    ensures { result ≡ first_of (spec.word_wanted start wants) }
{
    match wants {
        Want::Exactly(kind) => {
            if same_type(kind, GoType::Word) {
                None
            } else {
                Some(Fault {
                    start,
                    code: Code::WrongType,
                })
            }
        }
        _ => None,
    }
}

/// The fault that is told of the variable in `x++`, `x--` or `x op= e`, whose node is at a place.
pub fn counted_at<N: Scopes>(names: &N, nodes: &[Node], at: usize) -> Option<Fault>
    requires formed { tree.IsFormed nodes.now }
    requires some { IsSomeExpr nodes.now at }
    ensures { (e : AnyExpr) → tree.IsPartAt nodes.now at (PExpr e) → result ≡ first_of (spec.counted (N.env names.now) (expr_of e)) }
{
    let target = counted_target(names, nodes, at);
    let start = start_at(names, nodes, at);
    let misfit = word_fault(start, target.wants);
    earliest(target.first, misfit)
}

// ---- divisors

fn is_dividing(sign: u8) -> bool
    ensures { result ≡ expr.is_dividing sign }
{
    sign == CLASS_SLASH
        || sign == CLASS_PERCENT
        || sign == CLASS_SLASH_ASSIGN
        || sign == CLASS_PERCENT_ASSIGN
}

fn zero_divisor(sign: u8, spot: Spot, class: Class) -> Option<Fault>
    ensures { result ≡ first_of (expr.zero_divisor sign spot class) }
{
    match class {
        Class::Fixed(_, Some(Value::Count(n))) => {
            if is_dividing(sign) && n == 0 {
                Some(Fault {
                    start: spot.start,
                    code: Code::ConstTooLarge,
                })
            } else {
                None
            }
        }
        _ => None,
    }
}

fn part_divisor(sign: u8, part: Part) -> Option<Fault>
    ensures { result ≡ first_of (divisor_of sign part) }
{
    match part.class {
        Some(class) => zero_divisor(sign, part.spot, class),
        None => None,
    }
}

fn divisor(sign: u8, known: Operand) -> Option<Fault>
    ensures { (env : Env) (e : PlainExpr) → IsOperand env e known → result ≡ first_of (spec.divisor env sign e) }
{
    part_divisor(sign, known.part)
}

/// The fault that is told of `x op= e`, by the nodes of the variable and of the value.
pub fn update_at<N: Scopes>(
    names: &N,
    nodes: &[Node],
    left: usize,
    sign: Lexeme,
    right: usize,
) -> Option<Fault>
    requires formed { tree.IsFormed nodes.now }
    requires left { IsSomeExpr nodes.now left }
    requires right { IsSomeExpr nodes.now right }
    ensures { (a b : AnyExpr) → tree.IsPartAt nodes.now left (PExpr a) → tree.IsPartAt nodes.now right (PExpr b)
        → result ≡ first_of (spec.simple_findings (N.env names.now) (UpdateTree (expr_of a) sign (expr_of b))) }
{
    let own = counted_at(names, nodes, left);
    let value = operand_at(names, nodes, right);
    let misfit = placed(value, Want::Exactly(GoType::Word));
    let zero = divisor(sign.class, value);
    let more = earliest(misfit, zero);
    earliest(own, more)
}
