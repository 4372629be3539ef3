//! Names that a text declares.

ghost use Rattle.std.specs.Prelude.{◌≡◌, ◌∷◌, ◌++◌, [], true, IfOk, OnOk};
ghost use Rattle.gv_atomic.specs.Marks.{is_new as is_new_among};
ghost use Rattle.gv_atomic.specs.Typed.{names_of};
ghost use Rattle.gv_specs.specs.Faults.{HasNameFault};
ghost use Rattle.gv_specs.specs.Names.{name_in, with_var};
ghost use Rattle.gv_specs.specs.Told.{Adds};

use crate::told::want;
use gv_atomic::is_free;
use gv_base::{Code, Name, NoMemory};
use gv_specread::Span;
use gv_termread::bytes_from;
use gv_terms::{Scope, Sort};
use gv_typing::Fault;
use std::alloc::Global;

/// The name that a span has.
pub fn name_of(alloc: Global, text: &[u8], span: Span) -> Result<Name, NoMemory>
    ensures { IfOk result (λ name. name ≡ name_in text.now span) }
{
    Name::from_slice(alloc, bytes_from(text, span.start, span.end))
}

// Whether a name may be declared beside variables.
fn is_new(vars: &Scope, name: &Name) -> bool
    ensures { result ≡ is_new_among (names_of vars.now) name.now }
{
    if !is_free(name.as_slice()) {
        return false;
    }
    vars.sort_of(name).is_none()
}

// Adds a variable whose name may be declared.
fn add(alloc: Global, vars: &mut Scope, name: &Name, sort: Sort) -> Result<(), NoMemory>
    requires { is_new_among (names_of vars.old) name.now ≡ true }
    ensures { OnOk result (vars.new ≡ vars.old ++ (record { name = name.now; sort = sort }) ∷ []) }
{
    vars.declare(name.copy(alloc)?, sort)?;
    Ok(())
}

/// Adds a variable, where its name may be declared beside the others.
pub fn add_new(alloc: Global, vars: &mut Scope, name: &Name, sort: Sort) -> Result<bool, NoMemory>
    ensures told { IfOk result (λ new. new ≡ is_new_among (names_of vars.old) name.now) }
    ensures added { OnOk result (vars.new ≡ with_var vars.old (record { name = name.now; sort = sort })) }
{
    if !is_new(vars, name) {
        return Ok(false);
    }
    add(alloc, vars, name, sort)?;
    Ok(true)
}

/// Declares the name of a span beside variables. A constant of terms, and a name that one of them bears, is `Twice`.
pub fn declare(
    alloc: Global,
    text: &[u8],
    vars: &mut Scope,
    span: Span,
    sort: Sort,
    first: &mut Option<Fault>,
) -> Result<Name, NoMemory>
    ensures name { IfOk result (λ name. name ≡ name_in text.now span) }
    ensures scope { OnOk result (vars.new ≡ with_var vars.old (record { name = name_in text.now span; sort = sort })) }
    ensures noted { OnOk result (Adds (HasNameFault text.now vars.old span) first.old first.new) }
{
    let name = name_of(alloc, text, span)?;
    let new = add_new(alloc, vars, &name, sort)?;
    want(new, first, span.start, Code::Twice);
    Ok(name)
}
