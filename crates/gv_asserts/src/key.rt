//! Keys of atoms.

ghost use Rattle.std.specs.Prelude.{◌≡◌};
ghost use Rattle.gv_asserts.specs.Keys as spec;

use gv_base::List;
use gv_commands::Simple;
use gv_terms::Term;

/// A kind of atoms, with the struct and field, the field, the book or the predicate that is named. This project's own.
#[derive(Clone, Copy, Debug, PartialEq, Eq)]
pub enum Kind {
    Cell { of: u32, field: u32 },
    Ro { of: u32, field: u32 },
    Slice,
    Roslice,
    Spare,
    Map,
    Mutex,
    Held,
    Lock,
    Master,
    Lease,
    Down,
    Field(u32),
    Flease(u32),
    Bmaster(u32),
    Blease(u32),
    Token,
    Done,
    Half,
    Instance(u32),
}

/// What an atom is found by: its kind and the terms of its key; of a range the kind of its body alone. This project's own.
#[derive(Debug, Drop)]
pub enum Key {
    Simple { kind: Kind, terms: List<Term> },
    Each(Kind),
}

/// The kind of an atom.
pub(crate) fn kind_of<T>(atom: &Simple<T>) -> Kind
    ensures { result ≡ spec.kind_of atom.now }
{
    match atom {
        Simple::Cell { of, field, .. } => Kind::Cell {
            of: *of,
            field: *field,
        },
        Simple::Ro { of, field, .. } => Kind::Ro {
            of: *of,
            field: *field,
        },
        Simple::Slice { .. } => Kind::Slice,
        Simple::Roslice { .. } => Kind::Roslice,
        Simple::Spare { .. } => Kind::Spare,
        Simple::Map { .. } => Kind::Map,
        Simple::Mutex { .. } => Kind::Mutex,
        Simple::Held { .. } => Kind::Held,
        Simple::Lock { .. } => Kind::Lock,
        Simple::Master { .. } => Kind::Master,
        Simple::Lease { .. } => Kind::Lease,
        Simple::Down { .. } => Kind::Down,
        Simple::Field { field, .. } => Kind::Field(*field),
        Simple::Flease { field, .. } => Kind::Flease(*field),
        Simple::Bmaster { book, .. } => Kind::Bmaster(*book),
        Simple::Blease { book, .. } => Kind::Blease(*book),
        Simple::Token { .. } => Kind::Token,
        Simple::Done { .. } => Kind::Done,
        Simple::Half { .. } => Kind::Half,
        Simple::Instance(inst) => Kind::Instance(inst.pred),
    }
}
