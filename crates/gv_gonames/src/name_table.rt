//! The names of a package.

ghost use Rattle.std.specs.Prelude.{◌≡◌, [], is_none, IfOk, OnOk, OnErr};
ghost use Rattle.gv_gotypes.specs.Scopes.{named_in};
ghost use Rattle.gv_gonames.specs.Named.{spelled, with_named};

use crate::firsts::put_first;
use crate::rows::NameRow;
use crate::span::{Span, bytes_between};
use gv_base::NoMemory;
use gv_gotypes::Entity;
use indexmap::IndexMap;
use std::alloc::Global;
use std::marker::Model;

/// The names that a package declares, in order of text, which contracts see as the list of them beside the text. Of two that
/// are spelled alike the first one counts. This project's own.
#[derive(Drop)]
pub struct NameTable<'a> {
    text: &'a [u8],
    rows: Vec<NameRow>,
    first: IndexMap<Vec<u8>, Entity>,
}

impl<'a> Model for NameTable<'a> {
    ghost use Rattle.std.specs.Prelude.{◌≡◌, ℕ, List as Seq};
    ghost use Rattle.gv_gonames.specs.Firsts.{value_at};
    ghost use Rattle.gv_gotypes.specs.Scopes.{named_in};
    ghost use Rattle.gv_gonames.specs.Named.{NamesOf, named_rows};

    ghost Value = { NamesOf };

    ghost view = { λ t. record { text = t.text.now; names = named_rows t.text.now t.rows.items } };

    ghost invariant = { λ t. (name : Seq ℕ) → value_at t.first name ≡ named_in (named_rows t.text.now t.rows.items) name };
}

impl<'a> NameTable<'a> {
    /// No names of a text.
    pub fn new(alloc: Global, text: &'a [u8]) -> NameTable<'a>
        ensures { result ≡ record { text = text.now; names = [] } }
    {
        NameTable {
            text,
            rows: Vec::new(alloc),
            first: IndexMap::new(alloc),
        }
    }

    /// What a name stands for, if anything.
    pub fn entity(&self, name: &[u8]) -> Option<Entity>
        ensures { result ≡ named_in self.now.names name.now }
    {
        self.first.get(name).copied()
    }

    /// Adds the name of a span behind the others, and tells whether it is a new one.
    pub fn add(&mut self, alloc: Global, name: Span, entity: Entity) -> Result<bool, NoMemory>
        ensures told { IfOk result (λ new. new ≡ is_none (named_in self.old.names (spelled self.old name))) }
        ensures added { OnOk result (self.new ≡ with_named self.old name entity) }
    {
        let bytes = bytes_between(self.text, name);
        self.rows.reserve(1)?;
        let new = put_first(alloc, &mut self.first, bytes, entity)?;
        self.rows.push(NameRow { name, entity })?;
        Ok(new)
    }
}
