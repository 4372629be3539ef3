//! The fields and methods of a struct.

ghost use Rattle.std.specs.Prelude.{◌≡◌, [], is_none, slice_range, IfOk, OnOk};
ghost use Rattle.gv_gonames.specs.Structs.{member_among, spelled, with_field, with_method};

use crate::firsts::put_first;
use crate::rows::{FieldRow, MemberRow, MethodRow};
use crate::span::{Span, bytes_between};
use gv_base::NoMemory;
use gv_operands::GoType;
use indexmap::IndexMap;
use std::alloc::Global;
use std::marker::Model;

/// A struct of a package with its fields and methods in order of text, which contracts see beside the text. Of two fields, or two
/// methods, that are spelled alike the first one counts, and a field before a method. This project's own.
#[derive(Drop)]
pub struct StructTable<'a> {
    text: &'a [u8],
    name: Span,
    fields: Vec<FieldRow>,
    methods: Vec<MethodRow>,
    first: IndexMap<Vec<u8>, MemberRow>,
}

impl<'a> Model for StructTable<'a> {
    ghost use Rattle.std.specs.Prelude.{◌≡◌, ℕ, List as Seq, map, slice_range};
    ghost use Rattle.gv_gonames.specs.Firsts.{value_at};
    ghost use Rattle.gv_gonames.specs.Structs.{StructOf, field_row, method_row, member_among};

    ghost Value = { StructOf };

    ghost view = { λ t. record {
      text = t.text.now;
      struct = record {
        name = slice_range t.text.now t.name.start t.name.end;
        fields = map (field_row t.text.now) t.fields.items;
        methods = map (method_row t.text.now) t.methods.items;
      };
    } };

    ghost invariant = { λ t. (name : Seq ℕ) →
        value_at t.first name ≡ member_among (map (field_row t.text.now) t.fields.items) (map (method_row t.text.now) t.methods.items) name };
}

impl<'a> StructTable<'a> {
    /// A struct of a text without fields and methods.
    pub fn new(alloc: Global, text: &'a [u8], name: Span) -> StructTable<'a>
        ensures { result ≡ record { text = text.now; struct = record { name = slice_range text.now name.start name.end; fields = []; methods = [] } } }
    {
        StructTable {
            text,
            name,
            fields: Vec::new(alloc),
            methods: Vec::new(alloc),
            first: IndexMap::new(alloc),
        }
    }

    /// The field or method with a name, if there is one.
    pub fn member(&self, name: &[u8]) -> Option<MemberRow>
        ensures { result ≡ member_among self.now.struct.fields self.now.struct.methods name.now }
    {
        self.first.get(name).copied()
    }

    /// Adds the field of a span behind the others, and tells whether its name is a new one. There are no methods yet.
    pub fn add_field(
        &mut self,
        alloc: Global,
        name: Span,
        kind: Option<GoType>,
    ) -> Result<bool, NoMemory>
        requires { self.old.struct.methods ≡ [] }
        ensures told { IfOk result (λ new. new ≡ is_none (member_among self.old.struct.fields self.old.struct.methods (spelled self.old name))) }
        ensures added { OnOk result (self.new ≡ with_field self.old name kind) }
    {
        let bytes = bytes_between(self.text, name);
        self.fields.reserve(1)?;
        let new = put_first(alloc, &mut self.first, bytes, MemberRow::Field(kind))?;
        self.fields.push(FieldRow { name, kind })?;
        Ok(new)
    }

    /// Adds the method of a span behind the others, and tells whether no field and no method before it has its name.
    pub fn add_method(
        &mut self,
        alloc: Global,
        name: Span,
        procedure: u32,
    ) -> Result<bool, NoMemory>
        ensures told { IfOk result (λ new. new ≡ is_none (member_among self.old.struct.fields self.old.struct.methods (spelled self.old name))) }
        ensures added { OnOk result (self.new ≡ with_method self.old name procedure) }
    {
        let bytes = bytes_between(self.text, name);
        self.methods.reserve(1)?;
        let new = put_first(alloc, &mut self.first, bytes, MemberRow::Method(procedure))?;
        self.methods.push(MethodRow { name, procedure })?;
        Ok(new)
    }
}
