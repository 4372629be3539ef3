//! Commands.

use crate::program::ItemKind;
use crate::pure::Pure;
use gv_base::{List, Place};

/// A command, with the place of its statement in the text. `x`, `ok` and `xs` are locals that it sets,
/// `of` and `field` a struct and its field, `f` a procedure, each by its place; the others are its
/// operands. This project's own, after Goose.
#[derive(Debug, PartialEq, Eq, Drop)]
pub enum Cmd {
    /// `x = e`
    Let {
        x: u32,
        e: Pure,
        place: Place,
    },
    /// `x = a / b`
    Div {
        x: u32,
        a: Pure,
        b: Pure,
        place: Place,
    },
    /// `x = a % b`
    Rem {
        x: u32,
        a: Pure,
        b: Pure,
        place: Place,
    },
    /// `x = &T{v, ..}`
    New {
        x: u32,
        of: u32,
        vs: List<Pure>,
        place: Place,
    },
    /// `x = p.f`
    Load {
        x: u32,
        p: Pure,
        of: u32,
        field: u32,
        place: Place,
    },
    /// `p.f = e`, in two steps
    Store {
        p: Pure,
        of: u32,
        field: u32,
        e: Pure,
        place: Place,
    },
    /// `x = make([]T, n)`
    MakeSlice {
        x: u32,
        item: ItemKind,
        n: Pure,
        place: Place,
    },
    /// `x = s[i]`
    At {
        x: u32,
        s: Pure,
        i: Pure,
        place: Place,
    },
    /// `s[i] = v`, in two steps
    Put {
        s: Pure,
        i: Pure,
        v: Pure,
        place: Place,
    },
    /// `x = len(s)`
    Len {
        x: u32,
        s: Pure,
        place: Place,
    },
    /// `x = make(map[uint64]uint64)`
    NewMap {
        x: u32,
        place: Place,
    },
    /// `x, ok = m[k]`
    MapGet {
        x: u32,
        ok: u32,
        m: Pure,
        k: Pure,
        place: Place,
    },
    /// `m[k] = v`, in two steps
    MapPut {
        m: Pure,
        k: Pure,
        v: Pure,
        place: Place,
    },
    /// `delete(m, k)`, in two steps
    MapDelete {
        m: Pure,
        k: Pure,
        place: Place,
    },
    /// `x = new(sync.Mutex)`
    NewMutex {
        x: u32,
        place: Place,
    },
    /// `m.Lock()`
    Lock {
        m: Pure,
        place: Place,
    },
    /// `m.Unlock()`
    Unlock {
        m: Pure,
        place: Place,
    },
    /// `x = disk.Read(a)`
    DiskRead {
        x: u32,
        a: Pure,
        place: Place,
    },
    /// `x, ok = twodisk.Read(d, a)`
    DiskRead2 {
        x: u32,
        ok: u32,
        d: Pure,
        a: Pure,
        place: Place,
    },
    /// `twodisk.Write(d, a, s)`, and `disk.Write(a, s)` with 0 for d
    DiskWrite {
        d: Pure,
        a: Pure,
        s: Pure,
        place: Place,
    },
    /// `x = disk.Size()`
    DiskSize {
        x: u32,
        place: Place,
    },
    /// `x = machine.UInt64Get(s)`
    Get64 {
        x: u32,
        s: Pure,
        place: Place,
    },
    /// `machine.UInt64Put(s, v)`, in two steps
    Put64 {
        s: Pure,
        v: Pure,
        place: Place,
    },
    /// `x = s[a:b]`
    Sub {
        x: u32,
        s: Pure,
        a: Pure,
        b: Pure,
        place: Place,
    },
    /// `x = append(s, v)`, in two steps where there is a spare cell
    Append {
        x: u32,
        item: ItemKind,
        s: Pure,
        v: Pure,
        place: Place,
    },
    /// `xs = f(e, ..)`
    Call {
        xs: List<u32>,
        f: u32,
        es: List<Pure>,
        place: Place,
    },
    /// `go f(e, ..)`
    Spawn {
        f: u32,
        es: List<Pure>,
        place: Place,
    },
    /// `if e { .. } else { .. }`
    If {
        e: Pure,
        then: List<Cmd>,
        other: List<Cmd>,
        place: Place,
    },
    /// `for { .. }`
    Loop {
        body: List<Cmd>,
        place: Place,
    },
    Break {
        place: Place,
    },
    Continue {
        place: Place,
    },
    /// `return e, ..`
    Return {
        es: List<Pure>,
        place: Place,
    },
}
