//! What stands on the right of several left sides, and what a call gives them.

ghost use Rattle.std.specs.Prelude.{◌≡◌, ℕ, List as Seq, Some, IfOk, true, not, length, option_map};
ghost use Rattle.gv_base.specs.declared.answers.Code.TheVariants as code;
ghost use Rattle.gv_gosyntax.specs.declared.generated.gosyntax_acts.Part.TheVariants.{Expr as PExpr, Right as PRight};
ghost use Rattle.gv_gosyntax.specs.declared.tree.Expr.{Expr as AnyExpr};
ghost use Rattle.gv_gosyntax.specs.declared.tree.Right.{Right as AnyRight};
ghost use Rattle.gv_gosyntax.specs.Nodes as tree;
ghost use Rattle.gv_gonodes.specs.Expr.{IsSomeExpr};
ghost use Rattle.gv_gonodes.specs.Right.{IsSomeRight};
ghost use Rattle.gv_gotypes.specs.Assigning as spec;
ghost use Rattle.gv_gotypes.specs.Assigning.{Target as AnyTarget};
ghost use Rattle.gv_gotypes.specs.Trees.{expr_of, right_of, Value as ValueTree};
ghost use Rattle.gv_gotypes.specs.Types.{unless};
ghost use Rattle.gv_gotyped.specs.First.{first_of};
ghost use Rattle.gv_gocalls.specs.Answers.{results_of};
ghost use Rattle.gv_gosimple.specs.Lefts.{IsOnly, unlike_first, wants_of};

use gv_base::{Code, NoMemory};
use gv_gocalls::{Results, answer_at};
use gv_gonodes::{ExprNode, RightNode, expr_node, right_node};
use gv_goscopes::Scopes;
use gv_gosyntax::Node;
use gv_gotyped::{Fault, earliest};
use gv_gowalk::{Names, operand_at, placed_at};
use gv_operands::{Class, GoType, Want, same_type};
use std::alloc::Global;

// ---- what a call gives

fn is_unlike(want: Want, kind: Option<GoType>) -> bool
    ensures { result ≡ spec.is_unlike want kind }
{
    match (want, kind) {
        (Want::Exactly(wanted), Some(given)) => !same_type(wanted, given),
        _ => false,
    }
}

// The first of the results has another type than the first place wants.
fn first_is_unlike(wants: &[Want], kinds: &[Option<GoType>]) -> bool
    ensures { result ≡ unlike_first wants.now kinds.now }
{
    match wants {
        [want, ..] => match kinds {
            [kind, ..] => is_unlike(*want, *kind),
            [] => false,
        },
        [] => false,
    }
}

// One of the results has another type than its place wants.
fn some_is_unlike(wants: &[Want], kinds: &[Option<GoType>]) -> bool
    ensures { (ts : Seq AnyTarget) → wants.now ≡ wants_of ts → result ≡ spec.some_unlike ts kinds.now }
{
    let mut wanted = wants;
    let mut given = kinds;
    while let [_, more @ ..] = wanted {
        match given {
            [_, rest @ ..] => {
                if first_is_unlike(wanted, given) {
                    return true;
                }
                given = rest;
            }
            [] => return false,
        }
        wanted = more;
    }
    false
}

// Results of these types, as many as are wanted.
fn unlike_fault(wants: &[Want], kinds: &[Option<GoType>], start: u32) -> Option<Fault>
    ensures { (ts : Seq AnyTarget) → wants.now ≡ wants_of ts
        → result ≡ first_of (unless (not (spec.some_unlike ts kinds.now)) start code.WrongType) }
{
    if some_is_unlike(wants, kinds) {
        Some(Fault {
            start,
            code: Code::WrongType,
        })
    } else {
        None
    }
}

fn wrong_count(statement: u32) -> Option<Fault>
    ensures { result ≡ Some (record { start = statement; code = code.WrongCount }) }
{
    Some(Fault {
        start: statement,
        code: Code::WrongCount,
    })
}

// Results of these types.
fn kinds_fault(
    wants: &[Want],
    kinds: &[Option<GoType>],
    statement: u32,
    start: u32,
) -> Option<Fault>
    ensures { (ts : Seq AnyTarget) → wants.now ≡ wants_of ts → result ≡ first_of (spec.result_findings ts (Some kinds.now) statement start) }
{
    if kinds.len() != wants.len() {
        wrong_count(statement)
    } else {
        unlike_fault(wants, kinds, start)
    }
}

/// The fault that is told of the results of a call in places that want this; `statement` is where the statement begins, and `start`
/// where the call does.
pub fn results_fault(
    wants: &[Want],
    results: Results<'_>,
    statement: u32,
    start: u32,
) -> Option<Fault>
    ensures { (ts : Seq AnyTarget) → wants.now ≡ wants_of ts
        → result ≡ first_of (spec.result_findings ts (results_of results.entry) statement start) }
{
    match results {
        Results::Unknown => None,
        Results::Nothing => kinds_fault(wants, &[], statement, start),
        Results::One(kind) => kinds_fault(wants, &[kind], statement, start),
        Results::Of(kinds) => kinds_fault(wants, kinds, statement, start),
    }
}

// ---- reads of maps

fn is_map(class: Option<Class>) -> Option<bool>
    ensures { result ≡ option_map spec.is_map_class class }
{
    match class {
        Some(Class::Run(GoType::Map)) => Some(true),
        Some(_) => Some(false),
        None => None,
    }
}

/// Whether the operand is a read of a map, parentheses aside; none where it isn't known of what it reads.
pub(crate) fn map_read_at<N: Names>(names: &N, nodes: &[Node], at: usize) -> Option<bool>
    requires formed { tree.IsFormed nodes.now }
    requires some { IsSomeExpr nodes.now at }
    ensures { (e : AnyExpr) → tree.IsPartAt nodes.now at (PExpr e) → result ≡ spec.is_map_read (N.env names.now) (expr_of e) }
{
    match expr_node(nodes, at) {
        ExprNode::Paren { start: _, inner } => map_read_at(names, nodes, inner),
        ExprNode::Index { inner, index: _ } => {
            let whole = operand_at(names, nodes, inner);
            is_map(whole.part.class)
        }
        ExprNode::Constant { token: _ } => Some(false),
        ExprNode::Operand { name: _ } => Some(false),
        ExprNode::Convert { word: _, inner: _ } => Some(false),
        ExprNode::Select { inner: _, name: _ } => Some(false),
        ExprNode::SliceTo { inner: _, high: _ } => Some(false),
        ExprNode::SliceFrom {
            inner: _,
            low: _,
            high: _,
        } => Some(false),
        ExprNode::Unary { sign: _, inner: _ } => Some(false),
        ExprNode::Binary {
            left: _,
            sign: _,
            right: _,
        } => Some(false),
    }
}

// ---- right sides

// What a read of a map has against its left sides.
fn map_fault(wants: &[Want], class: Option<Class>, start: u32) -> Option<Fault>
    ensures { (ts : Seq AnyTarget) (statement : ℕ) → wants.now ≡ wants_of ts
        → result ≡ first_of (spec.read_findings ts (Some true) class statement start) }
{
    match class {
        Some(_) => unlike_fault(wants, &[Some(GoType::Word), Some(GoType::Boolean)], start),
        None => None,
    }
}

// What an operand has against several left sides; `read` tells whether it is a read of a map.
fn read_fault(
    wants: &[Want],
    read: Option<bool>,
    class: Option<Class>,
    statement: u32,
    start: u32,
) -> Option<Fault>
    ensures { (ts : Seq AnyTarget) → wants.now ≡ wants_of ts → result ≡ first_of (spec.read_findings ts read class statement start) }
{
    match read {
        Some(read) => {
            if read {
                map_fault(wants, class, start)
            } else {
                wrong_count(statement)
            }
        }
        None => None,
    }
}

// What the one left side wants, where there is one.
fn only_want(wants: &[Want]) -> Option<Want>
    ensures { IsOnly result wants.now }
{
    match wants {
        [want] => Some(*want),
        _ => None,
    }
}

// An operand on the right of several left sides, or of none.
fn several_fault<N: Names>(
    names: &N,
    nodes: &[Node],
    at: usize,
    wants: &[Want],
    statement: u32,
) -> Option<Fault>
    requires formed { tree.IsFormed nodes.now }
    requires some { IsSomeExpr nodes.now at }
    ensures { (e : AnyExpr) (ts : Seq AnyTarget) → tree.IsPartAt nodes.now at (PExpr e) → wants.now ≡ wants_of ts → (length ts ≡ 1 → ⊥)
        → result ≡ first_of (spec.right_findings (N.env names.now) ts statement (ValueTree (expr_of e))) }
{
    let known = operand_at(names, nodes, at);
    let read = map_read_at(names, nodes, at);
    let misfit = read_fault(
        wants,
        read,
        known.part.class,
        statement,
        known.part.spot.start,
    );
    earliest(known.first, misfit)
}

// An operand on the right.
fn value_fault<N: Names>(
    names: &N,
    nodes: &[Node],
    at: usize,
    wants: &[Want],
    statement: u32,
) -> Option<Fault>
    requires formed { tree.IsFormed nodes.now }
    requires some { IsSomeExpr nodes.now at }
    ensures { (e : AnyExpr) (ts : Seq AnyTarget) → tree.IsPartAt nodes.now at (PExpr e) → wants.now ≡ wants_of ts
        → result ≡ first_of (spec.right_findings (N.env names.now) ts statement (ValueTree (expr_of e))) }
{
    match only_want(wants) {
        Some(want) => placed_at(names, nodes, at, want),
        None => several_fault(names, nodes, at, wants, statement),
    }
}

/// The fault that is told of the right side whose node is at a place, where left sides want this; `statement` is where the statement
/// begins. It takes memory for the keys of a literal.
pub fn right_fault<N: Scopes>(
    alloc: Global,
    names: &N,
    nodes: &[Node],
    at: usize,
    wants: &[Want],
    statement: u32,
) -> Result<Option<Fault>, NoMemory>
    requires formed { tree.IsFormed nodes.now }
    requires some { IsSomeRight nodes.now at }
    ensures { (r : AnyRight) (ts : Seq AnyTarget) → tree.IsPartAt nodes.now at (PRight r) → wants.now ≡ wants_of ts
        → IfOk result (λ first. first ≡ first_of (spec.right_findings (N.env names.now) ts statement (right_of r))) }
{
    match right_node(nodes, at) {
        RightNode::Value { value } => Ok(value_fault(names, nodes, value, wants, statement)),
        RightNode::Result { result } => {
            let answer = answer_at(alloc, names, nodes, result)?;
            let misfit = results_fault(wants, answer.results, statement, answer.start);
            Ok(earliest(answer.first, misfit))
        }
    }
}
