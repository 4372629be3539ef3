//! Instances of axioms, as a table writes them and as they are found.

ghost use Rattle.std.specs.Prelude.{◌<◌, length};
ghost use Rattle.gv_terms.specs.Store.{AreIn};

use crate::terms::{term_of, terms_of, trees_of};
use anyhow::{Context, Result, bail};
use gv_axioms::{AxiomFault, instance};
use gv_terms::{Scope, Term, TermStore, TermTree};
use std::alloc::Global;

/// The formulas that an axiom asks for, in order, and the one that it gives.
#[derive(Debug, PartialEq, Drop)]
pub(crate) struct Made {
    premises: Vec<TermTree>,
    conclusion: TermTree,
}

fn trees(alloc: Global, store: &TermStore, premises: &[Term], conclusion: Term) -> Result<Made>
    requires all { AreIn store.now premises.now }
    requires one { conclusion.id < length store.now }
{
    Ok(Made {
        premises: trees_of(alloc, store, premises)?,
        conclusion: store.tree_of(alloc, conclusion)?,
    })
}

// The premises and the conclusion of an answer.
fn sides_of<'a>(answer: &'a str) -> Result<(&'a str, &'a str)> {
    if let Some(conclusion) = answer.strip_prefix("gives ") {
        return Ok(("", conclusion));
    }
    answer.split_once(" gives ").context("no answer")
}

/// The instance that an answer says, and none where it says that there is none.
pub(crate) fn wanted(alloc: Global, scope: &Scope, answer: &str) -> Result<Option<Made>> {
    if answer == "BadAxiom" {
        return Ok(None);
    }
    let (premises, conclusion) = sides_of(answer)?;
    let mut store = TermStore::new(alloc)?;
    let conclusion = term_of(alloc, &mut store, scope, conclusion)?;
    let premises = terms_of(alloc, &mut store, scope, premises)?;
    Ok(Some(trees(alloc, &store, premises.as_slice(), conclusion)?))
}

// The number and the parts of a text.
fn number_and_parts<'a>(text: &'a str) -> Result<(u32, &'a str)> {
    let (number, rest) = text.split_once(" (").context("no parts")?;
    let parts = rest.strip_suffix(")").context("no closing parenthesis")?;
    Ok((number.parse::<u32>()?, parts))
}

/// The instance of the axiom over the parts that a text names, where there is one.
pub(crate) fn found(alloc: Global, scope: &Scope, text: &str) -> Result<Option<Made>> {
    let (number, parts) = number_and_parts(text)?;
    let mut store = TermStore::new(alloc)?;
    let parts = terms_of(alloc, &mut store, scope, parts)?;
    match instance(alloc, &mut store, number, parts.as_slice()) {
        Ok(made) => {
            let premises = made.premises.as_slice();
            Ok(Some(trees(alloc, &store, premises, made.conclusion)?))
        }
        Err(AxiomFault::BadAxiom) => Ok(None),
        Err(AxiomFault::NoMemory) => bail!("out of memory"),
    }
}
