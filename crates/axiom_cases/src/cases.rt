//! The cases of a table.

use crate::made::{found, wanted};
use crate::variables::all_variables;
use anyhow::Result;
use case_table::Meaning;
use gv_terms::Scope;
use std::alloc::Global;

/// Texts that are axioms over terms, among variables.
#[derive(Drop)]
pub(crate) struct Axioms {
    scope: Scope,
}

impl Meaning for Axioms {
    fn new(alloc: Global) -> Result<Axioms> {
        Ok(Axioms {
            scope: all_variables(alloc)?,
        })
    }

    fn take(&mut self, _alloc: Global, _line: &str) -> Result<bool> {
        Ok(false)
    }

    fn other(&self, alloc: Global, text: &str, want: &str) -> Result<Option<String>> {
        let wanted = wanted(alloc, &self.scope, want)?;
        let found = found(alloc, &self.scope, text)?;
        if found == wanted {
            return Ok(None);
        }
        Ok(Some(match found {
            None => format!(in alloc; "BadAxiom")?,
            Some(made) => format!(in alloc; "{made:?}")?,
        }))
    }
}
