//! The variables of all tables.

use anyhow::Result;
use gv_base::Name;
use gv_terms::{Scope, Sort};
use std::alloc::Global;

const VARIABLES: [(&str, Sort); 22] = [
    ("a", Sort::Word),
    ("b", Sort::Word),
    ("c", Sort::Word),
    ("i", Sort::Word),
    ("j", Sort::Word),
    ("p", Sort::Bool),
    ("q", Sort::Bool),
    ("x", Sort::Bytes),
    ("y", Sort::Bytes),
    ("u", Sort::Words),
    ("v", Sort::Words),
    ("e", Sort::Refs),
    ("f", Sort::Refs),
    ("g", Sort::Blocks),
    ("h", Sort::Blocks),
    ("m", Sort::MapWW),
    ("n", Sort::MapWB),
    ("r", Sort::Ref),
    ("s", Sort::SliceS),
    ("t", Sort::SliceS),
    ("d", Sort::Call),
    ("o", Sort::Name),
];

/// The variables with their sorts.
pub(crate) fn all_variables(alloc: Global) -> Result<Scope> {
    let mut scope = Scope::new(alloc);
    for (name, sort) in VARIABLES {
        scope.declare(Name::from_slice(alloc, name.as_bytes())?, sort)?;
    }
    Ok(scope)
}
