//! Atoms: what may be owned, or known for good.

use gv_base::{List, Name};
use gv_terms::RawTerm;

/// A predicate, by its place among the declared ones, with its terms. This project's own.
#[derive(Debug, Drop)]
pub struct Inst<T> {
    pub pred: u32,
    pub args: List<T>,
}

/// An atom that is no range, with terms of a kind: those of a store, or such as they were read. The parts stand in the order in which a
/// script writes them; a struct, a field, a book, an operation and a predicate are named by their places. This project's own.
#[derive(Debug, Drop)]
pub enum Simple<T> {
    /// A field of an object that is a struct, with its value.
    Cell {
        object: T,
        of: u32,
        field: u32,
        value: T,
    },
    /// The same, read-only.
    Ro {
        object: T,
        of: u32,
        field: u32,
        value: T,
    },
    /// The cells of a slice, with the list of its items.
    Slice {
        slice: T,
        items: T,
    },
    /// The same, read-only.
    Roslice {
        slice: T,
        items: T,
    },
    /// The cells of a slice behind its length, up to its capacity, whatever they hold.
    Spare {
        slice: T,
    },
    /// A map of the heap, with its entries.
    Map {
        map: T,
        entries: T,
    },
    /// A free mutex that guards nothing.
    Mutex {
        mutex: T,
    },
    /// That a mutex is locked by whoever has this.
    Held {
        mutex: T,
    },
    /// What a mutex guards.
    Lock {
        mutex: T,
        guarded: Inst<T>,
    },
    /// A block of a disk, with its bytes: what a crash keeps of it.
    Master {
        disk: T,
        address: T,
        block: T,
    },
    /// The same: what a crash takes.
    Lease {
        disk: T,
        address: T,
        block: T,
    },
    /// That a disk has failed.
    Down {
        disk: T,
    },
    /// A field of the specification, with its value: what a crash keeps of it.
    Field {
        field: u32,
        value: T,
    },
    /// The same: what a crash takes, of a leased field.
    Flease {
        field: u32,
        value: T,
    },
    /// A cell of a book, with its value: what a crash keeps of it.
    Bmaster {
        book: u32,
        place: T,
        value: T,
    },
    /// The same: what a crash takes.
    Blease {
        book: u32,
        place: T,
        value: T,
    },
    /// That a call of an operation with these arguments may act.
    Token {
        call: T,
        op: u32,
        args: List<T>,
    },
    /// That a call has acted, with its reply where it has one.
    Done {
        call: T,
        reply: Option<T>,
    },
    /// One of the two halves under a name, with their value.
    Half {
        name: T,
        value: T,
    },
    /// A predicate at its terms.
    Instance(Inst<T>),
}

/// For each number from `low` on and below `high`, but for some, an atom that speaks of it. This project's own.
#[derive(Debug, Drop)]
pub struct Each<T> {
    /// The name of the number, as it was written.
    pub index: Name,
    pub low: T,
    pub high: T,
    pub except: List<T>,
    pub body: Simple<T>,
}

/// What may be owned, or known for good. This project's own.
#[derive(Debug, Drop)]
pub enum Atom<T> {
    Simple(Simple<T>),
    Each(Each<T>),
}

/// An atom whose terms are as they were read. This project's own.
pub type RawAtom = Atom<RawTerm>;

/// A predicate with terms as they were read. This project's own.
pub type RawInst = Inst<RawTerm>;
