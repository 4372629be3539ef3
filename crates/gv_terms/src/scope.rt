//! Names with their sorts, as terms see them.

ghost use Rattle.std.specs.Prelude.{◌≡◌, [], ◌∷◌, ◌++◌, Some, None, length, is_some, is_none, take, IfOk, OnErr};
ghost use Rattle.std.specs.Bool.{OnTrue, OnFalse};
ghost use Rattle.gv_terms.specs.Scopes.{sort_under};

use crate::sort::Sort;
use gv_base::{Name, NoMemory};
use indexmap::IndexMap;
use std::alloc::Global;
use std::marker::Model;

/// The variables of terms, no two with one name, which contracts see as their list in the order in which they were
/// declared. A look-up takes no more steps where there are more of them. This project's own.
#[derive(Drop)]
pub struct Scope {
    sorts: IndexMap<Name, Sort>,
}

impl Model for Scope {
    ghost use Rattle.std.specs.Prelude.{List as Seq};
    ghost use Rattle.gv_terms.specs.declared.var.Var.{Var};
    ghost use Rattle.gv_terms.specs.Scopes.{vars_of};

    ghost Value = { Seq Var };

    ghost view = { λ s. vars_of s.sorts.entries };
}

impl Scope {
    /// No variables.
    pub fn new(alloc: Global) -> Scope
        ensures { result ≡ [] }
    {
        Scope {
            sorts: IndexMap::new(alloc),
        }
    }

    /// How many variables there are.
    pub fn len(&self) -> usize
        ensures { result ≡ length self.now }
    {
        self.sorts.len()
    }

    /// The sort of the variable with this name, where there is one.
    pub fn sort_of(&self, name: &Name) -> Option<Sort>
        ensures { result ≡ sort_under self.now name.now }
    {
        self.sorts.get(name).copied()
    }

    /// Adds a variable, or answers false where there is one with this name already.
    pub fn declare(&mut self, name: Name, sort: Sort) -> Result<bool, NoMemory>
        ensures told { IfOk result (λ added. added ≡ is_none (sort_under self.old name)) }
        ensures added { IfOk result (λ added. OnTrue added (self.new ≡ self.old ++ (record { name = name; sort = sort }) ∷ [])) }
        ensures there { IfOk result (λ added. OnFalse added (self.new ≡ self.old)) }
        ensures kept { OnErr result (self.new ≡ self.old) }
    {
        if self.sorts.contains_key(&name) {
            return Ok(false);
        }
        self.sorts.insert(name, sort)?;
        Ok(true)
    }

    /// Keeps the first variables, so many, and takes the others away.
    pub fn truncate(&mut self, len: usize)
        ensures { self.new ≡ take len self.old }
    {
        self.sorts.truncate(len);
    }
}
