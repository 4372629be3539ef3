//! The cases of a table.

use crate::commands::commands_of;
use crate::facts::facts_of;
use crate::outcomes::outcomes;
use crate::repeated::written_out;
use crate::variables::declare_all;
use anyhow::{Context, Result};
use case_table::Meaning;
use gv_terms::{Scope, TermStore};
use std::alloc::Global;

/// Texts that are facts and commands, among variables.
#[derive(Drop)]
pub(crate) struct Proofs {
    scope: Scope,
}

// The facts and the commands of a text.
fn sides_of<'a>(text: &'a str) -> Result<(&'a str, &'a str)> {
    if let Some(commands) = text.strip_prefix("|- ") {
        return Ok(("", commands));
    }
    text.split_once(" |- ").context("no commands")
}

// What the commands of a text come to.
fn found(alloc: Global, scope: &Scope, text: &str) -> Result<String> {
    let (facts, commands) = sides_of(text)?;
    let commands = match commands_of(alloc, commands)? {
        Ok(commands) => commands,
        Err(code) => return Ok(String::from_str(alloc, code)?),
    };
    let mut store = TermStore::new(alloc)?;
    let mut facts = facts_of(alloc, &mut store, scope, facts)?;
    outcomes(alloc, &mut store, scope, &mut facts, commands.as_slice())
}

impl Meaning for Proofs {
    fn new(alloc: Global) -> Result<Proofs> {
        Ok(Proofs {
            scope: Scope::new(alloc),
        })
    }

    fn take(&mut self, alloc: Global, line: &str) -> Result<bool> {
        match line.strip_prefix("variables ") {
            Some(text) => {
                declare_all(alloc, &mut self.scope, text)?;
                Ok(true)
            }
            None => Ok(false),
        }
    }

    fn other(&self, alloc: Global, text: &str, want: &str) -> Result<Option<String>> {
        let text = written_out(alloc, text)?;
        let found = found(alloc, &self.scope, text.as_str())?;
        Ok(if found.as_str() == want {
            None
        } else {
            Some(found)
        })
    }
}
