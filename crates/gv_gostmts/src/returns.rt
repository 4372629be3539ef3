//! `return`.

ghost use Rattle.std.specs.Prelude.{◌≡◌, ◌==◌, [], ◌∷◌, Some, List as Seq, map, length, IfOk};
ghost use Rattle.gv_gosyntax.specs.declared.generated.gosyntax_acts.Part.TheVariants.{Call as PCall, Right as PRight, Rights as PRights};
ghost use Rattle.gv_gosyntax.specs.declared.tree.Call.{Call as AnyCall};
ghost use Rattle.gv_gosyntax.specs.declared.tree.Right.{Right as AnyRight};
ghost use Rattle.gv_gosyntax.specs.Nodes as tree;
ghost use Rattle.gv_gonodes.specs.Call.{IsSomeCall};
ghost use Rattle.gv_gonodes.specs.Right.{IsSomeRight};
ghost use Rattle.gv_gonodes.specs.Rights.{IsSomeRights};
ghost use Rattle.gv_gotypes.specs.Statements as spec;
ghost use Rattle.gv_base.specs.declared.answers.Code.TheVariants as code;
ghost use Rattle.gv_gotypes.specs.Calls.{Answer as AnyAnswer};
ghost use Rattle.gv_gotypes.specs.Types.{unless};
ghost use Rattle.gv_gocalls.specs.Answers.{results_of};
ghost use Rattle.gv_gotypes.specs.Trees.{Result as ResultTree, call_of, right_of};
ghost use Rattle.gv_gotyped.specs.First.{first_of};
ghost use Rattle.gv_gosimple.specs.Lefts.{wants_of};
ghost use Rattle.gv_gostmts.specs.Lists.{AreRights, AreSomeRights, IsCall, behind, first_want, other_kinds, right_one};

use crate::lists::rights_at;
use gv_base::{Code, NoMemory};
use gv_gocalls::{Results, answer_at, want_of};
use gv_gonodes::{RightNode, right_node};
use gv_goscopes::Scopes;
use gv_gosimple::results_fault;
use gv_gosyntax::Node;
use gv_gotyped::{Fault, earliest};
use gv_gowalk::placed_at;
use gv_operands::{GoType, Want};
use std::alloc::Global;

fn wrong_count(word: u32) -> Option<Fault>
    ensures { result ≡ Some (record { start = word; code = code.WrongCount }) }
{
    Some(Fault {
        start: word,
        code: Code::WrongCount,
    })
}

// ---- right sides in the places of results

fn first_wanted(kinds: &[Option<GoType>]) -> Want
    ensures { result ≡ first_want kinds.now }
{
    match kinds {
        [kind, ..] => want_of(*kind),
        [] => Want::Unknown,
    }
}

fn one_fault<N: Scopes>(
    alloc: Global,
    names: &N,
    nodes: &[Node],
    at: usize,
    want: Want,
) -> Result<Option<Fault>, NoMemory>
    requires formed { tree.IsFormed nodes.now }
    requires some { IsSomeRight nodes.now at }
    ensures { (r : AnyRight) → tree.IsPartAt nodes.now at (PRight r)
        → IfOk result (λ first. first ≡ first_of (right_one (N.env names.now) want (right_of r))) }
{
    match right_node(nodes, at) {
        RightNode::Value { value } => Ok(placed_at(names, nodes, value, want)),
        RightNode::Result { result } => {
            let answer = answer_at(alloc, names, nodes, result)?;
            Ok(answer.first)
        }
    }
}

fn others(kinds: &[Option<GoType>]) -> &[Option<GoType>]
    ensures { result.now ≡ other_kinds kinds.now }
{
    match kinds {
        [_, rest @ ..] => rest,
        [] => kinds,
    }
}

// The results that are left behind a right side.
fn left_behind<'a>(nodes: &[Node], at: usize, kinds: &'a [Option<GoType>]) -> &'a [Option<GoType>]
    requires formed { tree.IsFormed nodes.now }
    requires some { IsSomeRight nodes.now at }
    ensures { (r : AnyRight) → tree.IsPartAt nodes.now at (PRight r) → result.now ≡ behind (right_of r) kinds.now }
{
    match right_node(nodes, at) {
        RightNode::Value { value: _ } => others(kinds),
        RightNode::Result { result: _ } => kinds,
    }
}

fn returned_fault<N: Scopes>(
    alloc: Global,
    names: &N,
    nodes: &[Node],
    places: &[usize],
) -> Result<Option<Fault>, NoMemory>
    requires formed { tree.IsFormed nodes.now }
    requires some { AreSomeRights nodes.now places.now }
    ensures { (rs : Seq AnyRight) → AreRights nodes.now places.now rs
        → IfOk result (λ first. first ≡ first_of (spec.returned (N.env names.now) (N.env names.now).results (map right_of rs))) }
{
    let mut first = None;
    let mut kinds = names.results();
    let mut left = places;
    while let [place, rest @ ..] = left {
        let want = first_wanted(kinds);
        let own = one_fault(alloc, names, nodes, *place, want)?;
        kinds = left_behind(nodes, *place, kinds);
        first = earliest(first, own);
        left = rest;
    }
    Ok(first)
}

// ---- `return f()`

// The call that is the first right side, where there is no other.
fn first_call_at(nodes: &[Node], places: &[usize]) -> Option<usize>
    requires formed { tree.IsFormed nodes.now }
    requires some { AreSomeRights nodes.now places.now }
    ensures { (rs : Seq AnyRight) → AreRights nodes.now places.now rs → length places.now ≡ 1 → IsCall nodes.now result (map right_of rs) }
{
    match places {
        [place, ..] => match right_node(nodes, *place) {
            RightNode::Value { value: _ } => None,
            RightNode::Result { result } => Some(result),
        },
        [] => None,
    }
}

// The call that is the one right side at these places.
fn call_alone_at(nodes: &[Node], places: &[usize]) -> Option<usize>
    requires formed { tree.IsFormed nodes.now }
    requires some { AreSomeRights nodes.now places.now }
    ensures { (rs : Seq AnyRight) → AreRights nodes.now places.now rs → IsCall nodes.now result (map right_of rs) }
{
    if places.len() == 1 {
        first_call_at(nodes, places)
    } else {
        None
    }
}

fn wants_for(alloc: Global, kinds: &[Option<GoType>]) -> Result<Vec<Want>, NoMemory>
    ensures { IfOk result (λ wants. wants.items ≡ wants_of (spec.wanted kinds.now)) }
{
    let mut wants = Vec::new(alloc);
    let mut left = kinds;
    while let [_, rest @ ..] = left {
        wants.push(first_wanted(left))?;
        left = rest;
    }
    Ok(wants)
}

// What a call gives in the place of these results.
fn given_fault(
    alloc: Global,
    kinds: &[Option<GoType>],
    results: Results<'_>,
    word: u32,
    start: u32,
) -> Result<Option<Fault>, NoMemory>
    ensures { (a : AnyAnswer) → results_of results.entry ≡ a.results
        → IfOk result (λ first. first ≡ first_of (spec.returned_call kinds.now a word start)) }
{
    if kinds.len() == 0 {
        return Ok(wrong_count(word));
    }
    let wants = wants_for(alloc, kinds)?;
    Ok(results_fault(wants.as_slice(), results, word, start))
}

fn call_fault<N: Scopes>(
    alloc: Global,
    names: &N,
    nodes: &[Node],
    at: usize,
    word: u32,
) -> Result<Option<Fault>, NoMemory>
    requires formed { tree.IsFormed nodes.now }
    requires some { IsSomeCall nodes.now at }
    ensures { (c : AnyCall) → tree.IsPartAt nodes.now at (PCall c)
        → IfOk result (λ first. first ≡ first_of (spec.return_findings (N.env names.now) word (ResultTree (call_of c) ∷ []))) }
{
    let answer = answer_at(alloc, names, nodes, at)?;
    let given = given_fault(alloc, names.results(), answer.results, word, answer.start)?;
    Ok(earliest(answer.first, given))
}

fn count_fault(given: usize, wanted: usize, word: u32) -> Option<Fault>
    ensures { result ≡ first_of (unless (given == wanted) word code.WrongCount) }
{
    if given == wanted {
        None
    } else {
        wrong_count(word)
    }
}

// A `return` whose right sides stand at these places.
fn placed_return<N: Scopes>(
    alloc: Global,
    names: &N,
    nodes: &[Node],
    places: &[usize],
    word: u32,
) -> Result<Option<Fault>, NoMemory>
    requires formed { tree.IsFormed nodes.now }
    requires some { AreSomeRights nodes.now places.now }
    ensures { (rs : Seq AnyRight) → AreRights nodes.now places.now rs
        → IfOk result (λ first. first ≡ first_of (spec.return_findings (N.env names.now) word (map right_of rs))) }
{
    match call_alone_at(nodes, places) {
        Some(call) => call_fault(alloc, names, nodes, call, word),
        None => {
            let count = count_fault(places.len(), names.results().len(), word);
            let values = returned_fault(alloc, names, nodes, places)?;
            Ok(earliest(count, values))
        }
    }
}

/// The fault that is told of a `return` with the right sides whose node is at a place.
pub(crate) fn return_fault<N: Scopes>(
    alloc: Global,
    names: &N,
    nodes: &[Node],
    word: u32,
    rights: usize,
) -> Result<Option<Fault>, NoMemory>
    requires formed { tree.IsFormed nodes.now }
    requires some { IsSomeRights nodes.now rights }
    ensures { (rs : Seq AnyRight) → tree.IsPartAt nodes.now rights (PRights rs)
        → IfOk result (λ first. first ≡ first_of (spec.return_findings (N.env names.now) word (map right_of rs))) }
{
    let places = rights_at(alloc, nodes, rights)?;
    placed_return(alloc, names, nodes, places.as_slice(), word)
}
