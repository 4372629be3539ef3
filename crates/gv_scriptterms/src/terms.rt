//! Terms by their nodes.

ghost use Rattle.std.specs.Prelude.{◌≡◌, List as Seq, Option as Maybe, map, option_map, IfOk};
ghost use Rattle.gv_termread.specs.declared.generated.term_acts.Part.TheVariants.{Other as POther, Term as PTerm};
ghost use Rattle.gv_termread.specs.declared.placed.PlacedTerm.{PlacedTerm as AnyTerm};
ghost use Rattle.gv_scriptsyntax.specs.declared.generated.script_acts.ScriptPart.TheVariants.{MaybeTerm as PMaybeTerm, Terms as PTerms};
ghost use Rattle.gv_scriptsyntax.specs.Nodes as tree;
ghost use Rattle.gv_certnodes.specs.MaybeTerm.{IsSomeMaybeTerm};
ghost use Rattle.gv_certnodes.specs.Term.{IsSomeTerm};
ghost use Rattle.gv_certnodes.specs.Terms.{IsSomeTerms};

use crate::making::{
    binary, constant, in_parens, maker, number, of_one, of_three, of_two, unary, variable,
};
use gv_certnodes::{MaybeTermNode, TermNode, TermsNode, maybe_term_node, term_node, terms_node};
use gv_scriptsyntax::Node;
use gv_termread::PlacedTerm;
use gv_terms::RawTerm;
use std::alloc::{AllocError, Global};

/// The term whose node is at a place, with the places of its parts in the text. It recurses as deep as the term is nested.
pub fn placed_at(
    alloc: Global,
    text: &[u8],
    nodes: &[Node],
    at: usize,
) -> Result<PlacedTerm, AllocError>
    requires formed { tree.IsFormed text.now nodes.now }
    requires some { IsSomeTerm text.now nodes.now at }
    ensures { IfOk result (λ t. (whole : AnyTerm) → tree.IsPartAt text.now nodes.now at (PTerm whole) → t ≡ whole) }
{
    match term_node(text, nodes, at) {
        TermNode::Binary { left, sign, right } => {
            let first = placed_at(alloc, text, nodes, left)?;
            let second = placed_at(alloc, text, nodes, right)?;
            binary(alloc, text, first, sign, second)
        }
        TermNode::Unary { sign, inner } => {
            let first = placed_at(alloc, text, nodes, inner)?;
            unary(alloc, text, sign, first)
        }
        TermNode::Number { token } => number(alloc, text, token),
        TermNode::Constant { word } => constant(alloc, text, word),
        TermNode::Variable { name } => variable(alloc, text, name),
        TermNode::Paren { brace, inner } => {
            let first = placed_at(alloc, text, nodes, inner)?;
            in_parens(alloc, text, brace, first)
        }
        TermNode::Maker { name, count, item } => {
            let first = placed_at(alloc, text, nodes, item)?;
            maker(alloc, text, name, count, first)
        }
        TermNode::OfOne { name, a } => {
            let first = placed_at(alloc, text, nodes, a)?;
            of_one(alloc, text, name, first)
        }
        TermNode::OfTwo { name, a, b } => {
            let first = placed_at(alloc, text, nodes, a)?;
            let second = placed_at(alloc, text, nodes, b)?;
            of_two(alloc, text, name, first, second)
        }
        TermNode::OfThree { name, a, b, c } => {
            let first = placed_at(alloc, text, nodes, a)?;
            let second = placed_at(alloc, text, nodes, b)?;
            let third = placed_at(alloc, text, nodes, c)?;
            of_three(alloc, text, name, first, second, third)
        }
    }
}

/// The term whose node is at a place, as it was read. It recurses as deep as the term is nested. This project's own.
pub fn term_at(alloc: Global, text: &[u8], nodes: &[Node], at: usize) -> Result<RawTerm, AllocError>
    requires formed { tree.IsFormed text.now nodes.now }
    requires some { IsSomeTerm text.now nodes.now at }
    ensures { IfOk result (λ t. (whole : AnyTerm) → tree.IsPartAt text.now nodes.now at (PTerm whole) → t ≡ whole.term) }
{
    let placed = placed_at(alloc, text, nodes, at)?;
    Ok(placed.term)
}

/// The terms of a list, in order, in time linear in their nodes. This project's own.
pub fn terms_at(
    alloc: Global,
    text: &[u8],
    nodes: &[Node],
    at: usize,
) -> Result<Vec<RawTerm>, AllocError>
    requires formed { tree.IsFormed text.now nodes.now }
    requires some { IsSomeTerms text.now nodes.now at }
    ensures { IfOk result (λ ts. (whole : Seq AnyTerm) → tree.IsPartAt text.now nodes.now at (POther (PTerms whole)) → ts.items ≡ map (λ t. t.term) whole) }
{
    let mut terms = Vec::new(alloc);
    let mut place = at;
    loop {
        match terms_node(text, nodes, place) {
            TermsNode::NoTerms => break,
            TermsNode::Term {
                terms: before,
                term,
            } => {
                let last = term_at(alloc, text, nodes, term)?;
                terms.push(last)?;
                place = before;
            }
            TermsNode::NextTerm {
                terms: before,
                term,
            } => {
                let last = term_at(alloc, text, nodes, term)?;
                terms.push(last)?;
                place = before;
            }
            TermsNode::InTerms { terms: same } => place = same,
            TermsNode::WordTerms { terms: same } => place = same,
        }
    }
    terms.reverse();
    Ok(terms)
}

/// A term that may be left out. This project's own.
pub fn maybe_term_at(
    alloc: Global,
    text: &[u8],
    nodes: &[Node],
    at: usize,
) -> Result<Option<RawTerm>, AllocError>
    requires formed { tree.IsFormed text.now nodes.now }
    requires some { IsSomeMaybeTerm text.now nodes.now at }
    ensures { IfOk result (λ t. (whole : Maybe AnyTerm) → tree.IsPartAt text.now nodes.now at (POther (PMaybeTerm whole)) → t ≡ option_map (λ u. u.term) whole) }
{
    match maybe_term_node(text, nodes, at) {
        MaybeTermNode::NoTerm => Ok(None),
        MaybeTermNode::WordTerm { term } => {
            let found = term_at(alloc, text, nodes, term)?;
            Ok(Some(found))
        }
    }
}
