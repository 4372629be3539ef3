//! The variables of a table.

use anyhow::{Context, Result, bail};
use gv_base::Name;
use gv_terms::{Scope, Sort};
use std::alloc::Global;

fn sort_named(name: &str) -> Result<Sort> {
    Ok(match name {
        "Word" => Sort::Word,
        "Bool" => Sort::Bool,
        "Bytes" => Sort::Bytes,
        "Words" => Sort::Words,
        "Refs" => Sort::Refs,
        "Blocks" => Sort::Blocks,
        "MapWW" => Sort::MapWW,
        "MapWB" => Sort::MapWB,
        "Ref" => Sort::Ref,
        "SliceS" => Sort::SliceS,
        "Call" => Sort::Call,
        "Name" => Sort::Name,
        _ => bail!("no sort: {name}"),
    })
}

/// Declares the variables that a text names, behind their sort.
pub(crate) fn declare_all(alloc: Global, scope: &mut Scope, text: &str) -> Result<()> {
    let (sort, names) = text.split_once(' ').context("no variables")?;
    let sort = sort_named(sort)?;
    for name in names.split(' ') {
        if !scope.declare(Name::from_slice(alloc, name.as_bytes())?, sort)? {
            bail!("declared twice: {name}");
        }
    }
    Ok(())
}
