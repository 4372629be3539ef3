//! Reads that set temporaries.

ghost use Rattle.std.specs.Prelude.{IfOk, length};
ghost use Rattle.gv_lowering.specs.Operands as lower;
ghost use Rattle.gv_lowerops.specs.Tails.{IsTailBehind, IsReadBehind};
ghost use Rattle.gv_lowerops.specs.declared.draft.Draft.{Draft as AnyDraft};

use crate::draft::{Draft, Read, Tail};
use crate::last::{Last, Reading};
use crate::places::Places;
use gv_base::{NoMemory, Place};
use gv_lang::{Cmd, LocalKind, Pure};

// A read of a value of this kind sets the next temporary.
fn read_into_temporary<P: Places>(
    places: &P,
    place: Place,
    draft: Draft,
    kind: LocalKind,
    reading: Reading,
) -> Result<Read, NoMemory>
    ensures { (old : AnyDraft) (t : lower.Tail) → IsTailBehind old (record { draft = draft; last = Last.Reads kind reading }) t
        → IfOk result (λ read. IsReadBehind old read (lower.settled (P.context places.now) place (length old.temps.items) t)) }
{
    let x = places.temporary(draft.temps.len())?;
    let draft = draft
        .with_command(reading.into_command(x, place))?
        .with_temporary(kind)?;
    Ok(Read {
        draft,
        value: Pure::Local(x),
    })
}

// A read of a map sets the next two temporaries.
fn map_into_temporaries<P: Places>(
    places: &P,
    place: Place,
    draft: Draft,
    m: Pure,
    k: Pure,
) -> Result<Read, NoMemory>
    ensures { (old : AnyDraft) (t : lower.Tail) → IsTailBehind old (record { draft = draft; last = Last.ReadsMap m k }) t
        → IfOk result (λ read. IsReadBehind old read (lower.settled (P.context places.now) place (length old.temps.items) t)) }
{
    let x = places.temporary(draft.temps.len())?;
    let draft = draft.with_temporary(LocalKind::Word)?;
    let ok = places.temporary(draft.temps.len())?;
    let draft = draft
        .with_temporary(LocalKind::Bool)?
        .with_command(Cmd::MapGet { x, ok, m, k, place })?;
    Ok(Read {
        draft,
        value: Pure::Local(x),
    })
}

/// What ends in a read sets a temporary.
pub fn settled<P: Places>(places: &P, place: Place, tail: Tail) -> Result<Read, NoMemory>
    ensures { (old : AnyDraft) (t : lower.Tail) → IsTailBehind old tail t
        → IfOk result (λ read. IsReadBehind old read (lower.settled (P.context places.now) place (length old.temps.items) t)) }
{
    let Tail { draft, last } = tail;
    match last {
        Last::Value(value) => Ok(Read { draft, value }),
        Last::Reads(kind, reading) => read_into_temporary(places, place, draft, kind, reading),
        Last::ReadsMap(m, k) => map_into_temporaries(places, place, draft, m, k),
    }
}
