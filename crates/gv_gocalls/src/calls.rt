//! Calls.

ghost use Rattle.std.specs.Prelude.{◌≡◌, List as Seq, Some, None, map, IfOk, ◌==◌};
ghost use Rattle.gv_base.specs.declared.answers.Code.TheVariants as code;
ghost use Rattle.gv_gosyntax.specs.declared.generated.gosyntax_acts.Part.TheVariants.{Call as PCall, Expr as PExpr, Exprs as PExprs};
ghost use Rattle.gv_gosyntax.specs.declared.tree.Call.{Call as AnyCall};
ghost use Rattle.gv_gosyntax.specs.declared.tree.Expr.{Expr as AnyExpr};
ghost use Rattle.gv_gosyntax.specs.Nodes as tree;
ghost use Rattle.gv_gonodes.specs.Call.{IsSomeCall};
ghost use Rattle.gv_gonodes.specs.Expr.{IsSomeExpr};
ghost use Rattle.gv_gonodes.specs.Exprs.{IsSomeExprs};
ghost use Rattle.gv_gotypes.specs.Calls as spec;
ghost use Rattle.gv_gotypes.specs.Calls.{Callee as AnyCallee};
ghost use Rattle.gv_gotypes.specs.Places.{start_of};
ghost use Rattle.gv_gotypes.specs.Scopes.{Signature as AnySignature};
ghost use Rattle.gv_gotypes.specs.Types.{unless};
ghost use Rattle.gv_gotypes.specs.Trees.{Expr as PlainExpr, Function as FunctionTree, Pair as PairTree, call_of, expr_of};
ghost use Rattle.gv_gotyped.specs.First.{first_of};
ghost use Rattle.gv_goscopes.specs.Called.{IsThisSignature};
ghost use Rattle.gv_gocalls.specs.Answers.{IsAnswer, IsThisCallee, IsThisAnswer};

use crate::answers::{Answer, Callee, Results};
use crate::arguments::{arguments_at, count_at};
use crate::callees::callee_at;
use crate::literals::literal_at;
use crate::made::{append_at, delete_at, make_at, make_length_at, new_at};
use gv_base::{Code, NoMemory};
use gv_gonodes::{CallNode, call_node};
use gv_goscopes::{Scopes, Signature};
use gv_gosyntax::generated::gosyntax_table::CLASS_DELETE;
use gv_gosyntax::{Lexeme, Node};
use gv_gotyped::{Fault, earliest};
use gv_gowalk::Names;
use std::alloc::Global;

fn count_fault(wanted: usize, given: usize, start: u32) -> Option<Fault>
    ensures { result ≡ first_of (unless (wanted == given) start code.WrongCount) }
{
    if wanted == given {
        None
    } else {
        Some(Fault {
            start,
            code: Code::WrongCount,
        })
    }
}

// What is called is not known.
fn unknown_answer<'a, N: Scopes>(
    names: &N,
    nodes: &[Node],
    callee: Callee<'a>,
    arguments: usize,
) -> Answer<'a>
    requires formed { tree.IsFormed nodes.now }
    requires some { IsSomeExprs nodes.now arguments }
    ensures { (f : PlainExpr) (es : Seq AnyExpr) (k : AnyCallee) → tree.IsPartAt nodes.now arguments (PExprs es)
        → IsThisCallee callee.entry (start_of f) k → k.signature ≡ None
        → IsThisAnswer result (start_of f) (spec.function_answer (N.env names.now) f (map expr_of es) k) }
{
    let misfit = arguments_at(names, nodes, arguments, &[]);
    Answer {
        start: callee.start,
        results: Results::Unknown,
        first: earliest(callee.first, misfit),
    }
}

// What is called takes and gives this.
fn known_answer<'a, N: Scopes>(
    names: &N,
    nodes: &[Node],
    callee: Callee<'a>,
    signature: Signature<'a>,
    arguments: usize,
) -> Answer<'a>
    requires formed { tree.IsFormed nodes.now }
    requires some { IsSomeExprs nodes.now arguments }
    ensures { (f : PlainExpr) (es : Seq AnyExpr) (k : AnyCallee) (s : AnySignature) → tree.IsPartAt nodes.now arguments (PExprs es)
        → IsThisCallee callee.entry (start_of f) k → k.signature ≡ Some s → IsThisSignature signature.entry s
        → IsThisAnswer result (start_of f) (spec.function_answer (N.env names.now) f (map expr_of es) k) }
{
    let given = count_at(nodes, arguments);
    let count = count_fault(signature.params.len(), given, callee.start);
    let misfit = arguments_at(names, nodes, arguments, signature.params);
    let more = earliest(count, misfit);
    Answer {
        start: callee.start,
        results: Results::Of(signature.results),
        first: earliest(callee.first, more),
    }
}

// A function or method is called.
fn function_at<'a, N: Scopes>(
    names: &'a N,
    nodes: &[Node],
    function: usize,
    arguments: usize,
) -> Answer<'a>
    requires formed { tree.IsFormed nodes.now }
    requires function { IsSomeExpr nodes.now function }
    requires arguments { IsSomeExprs nodes.now arguments }
    ensures { (f : AnyExpr) (es : Seq AnyExpr) → tree.IsPartAt nodes.now function (PExpr f) → tree.IsPartAt nodes.now arguments (PExprs es)
        → IsAnswer (N.env names.now) (FunctionTree (expr_of f) (map expr_of es)) result }
{
    let callee = callee_at(names, nodes, function);
    match callee.signature {
        Some(signature) => return known_answer(names, nodes, callee, signature, arguments),
        None => return unknown_answer(names, nodes, callee, arguments),
    }
}

// `delete(a, b)` or `append(a, b)`
fn pair_at<'a, N: Names>(
    names: &N,
    nodes: &[Node],
    word: Lexeme,
    first: usize,
    second: usize,
) -> Answer<'a>
    requires formed { tree.IsFormed nodes.now }
    requires first { IsSomeExpr nodes.now first }
    requires second { IsSomeExpr nodes.now second }
    ensures { (a b : AnyExpr) → tree.IsPartAt nodes.now first (PExpr a) → tree.IsPartAt nodes.now second (PExpr b)
        → IsAnswer (N.env names.now) (PairTree word (expr_of a) (expr_of b)) result }
{
    if word.class == CLASS_DELETE {
        delete_at(names, nodes, word, first, second)
    } else {
        append_at(names, nodes, word, first, second)
    }
}

/// The call whose node is at a place, where these names are seen. It takes memory for the keys of a literal.
pub fn answer_at<'a, N: Scopes>(
    alloc: Global,
    names: &'a N,
    nodes: &[Node],
    at: usize,
) -> Result<Answer<'a>, NoMemory>
    requires formed { tree.IsFormed nodes.now }
    requires some { IsSomeCall nodes.now at }
    ensures { (c : AnyCall) → tree.IsPartAt nodes.now at (PCall c) → IfOk result (λ known. IsAnswer (N.env names.now) (call_of c) known) }
{
    match call_node(nodes, at) {
        CallNode::Call {
            function,
            arguments,
        } => return Ok(function_at(names, nodes, function, arguments)),
        CallNode::Pair {
            word,
            first,
            second,
        } => return Ok(pair_at(names, nodes, word, first, second)),
        CallNode::Make { word, kind } => return Ok(make_at(names, nodes, word, kind)),
        CallNode::MakeLength { word, kind, length } => {
            return Ok(make_length_at(names, nodes, word, kind, length));
        }
        CallNode::New { word } => return Ok(new_at(names, word)),
        CallNode::Literal {
            start,
            name,
            fields,
        } => return literal_at(alloc, names, nodes, start, name, fields),
    }
}
