//! The names that a package declares, one after another.

ghost use Rattle.std.specs.Prelude.{◌≡◌, ℕ, List as Seq, [], ◌∷◌, is_some, slice_range, IfOk, OnOk};
ghost use Rattle.gv_gosyntax.specs.declared.lexeme.Lexeme.{Lexeme as AnyLexeme};
ghost use Rattle.gv_gotypes.specs.Files as files;
ghost use Rattle.gv_gotypes.specs.Scopes.{Method, Package};
ghost use Rattle.gv_gotyped.specs.First.{first_of};
ghost use Rattle.gv_gonames.specs.Named.{spelled, with_named};
ghost use Rattle.gv_gonames.specs.Structs.{kind_among, spelled as spelled_in, with_field, with_method};
ghost use Rattle.gv_goseen.specs.Naming.{method_twice_in, span_by, twice_by, AreBelow, AreFrom, IsGrown};

use crate::lookups::is_blank;
use gv_base::{Code, NoMemory};
use gv_gonames::{NameTable, StructTable, bytes_between, span_of};
use gv_gosyntax::Lexeme;
use gv_gotyped::Fault;
use gv_gotypes::Entity;
use gv_operands::GoType;
use std::alloc::Global;

// A name that is declared again, unless it is `_`.
pub(crate) fn twice_unless(new: bool, name: &[u8], start: u32) -> Option<Fault>
    ensures { result ≡ twice_by name.now new start }
{
    if new || is_blank(name) {
        None
    } else {
        Some(Fault {
            start,
            code: Code::Twice,
        })
    }
}

/// Declares a name of the package behind those before it: the fault that is told of it, where one of them is spelled alike.
pub fn declare_name(
    alloc: Global,
    text: &[u8],
    names: &mut NameTable,
    name: Lexeme,
    entity: Entity,
) -> Result<Option<Fault>, NoMemory>
    requires { names.old.text ≡ text.now }
    ensures told { IfOk result (λ fault. fault ≡ first_of (files.twice names.old.names (spelled names.old (span_by name)) name.start)) }
    ensures declared { OnOk result (names.new ≡ with_named names.old (span_by name) entity) }
{
    let span = span_of(name);
    let new = names.add(alloc, span, entity)?;
    Ok(twice_unless(new, bytes_between(text, span), name.start))
}

/// Declares a field of a struct behind those before it: the fault that is told of it, where one of them is spelled alike.
pub fn declare_field(
    alloc: Global,
    text: &[u8],
    table: &mut StructTable,
    name: Lexeme,
    kind: Option<GoType>,
) -> Result<Option<Fault>, NoMemory>
    requires text { table.old.text ≡ text.now }
    requires fields_alone { table.old.struct.methods ≡ [] }
    ensures told { IfOk result (λ fault. (tokens : Seq AnyLexeme) (before : Seq (Seq ℕ))
        → ((n : Seq ℕ) → files.is_borne before n ≡ is_some (kind_among table.old.struct.fields n))
        → fault ≡ first_of (files.fields_twice (record { text = text.now; tokens = tokens }) before (name ∷ []))) }
    ensures declared { OnOk result (table.new ≡ with_field table.old (span_by name) kind) }
{
    let span = span_of(name);
    let new = table.add_field(alloc, span, kind)?;
    Ok(twice_unless(new, bytes_between(text, span), name.start))
}

/// Declares a method of a struct behind those before it, whose fields are all declared, by its number among the procedures: the
/// fault that is told of it, where a field or one of the methods before is spelled alike.
pub fn declare_method(
    alloc: Global,
    text: &[u8],
    table: &mut StructTable,
    name: Lexeme,
    procedure: u32,
) -> Result<Option<Fault>, NoMemory>
    requires text { table.old.text ≡ text.now }
    ensures told { IfOk result (λ fault. (p : Package) (number : ℕ) (rest : Seq Method)
        → IsGrown p number table.old.struct rest → AreBelow procedure table.old.struct.methods → AreFrom procedure rest
        → fault ≡ first_of (method_twice_in p procedure (spelled_in table.old (span_by name)) number name.start)) }
    ensures declared { OnOk result (table.new ≡ with_method table.old (span_by name) procedure) }
{
    let span = span_of(name);
    let new = table.add_method(alloc, span, procedure)?;
    Ok(twice_unless(new, bytes_between(text, span), name.start))
}
