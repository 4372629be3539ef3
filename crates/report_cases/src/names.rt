//! Causes, codes and reasons by their names.

use anyhow::{Result, bail};
use gv_base::{Code, Reason};
use gv_history::WalkCause;
use gv_report::Cause;

const CAUSES: [Cause; 23] = [
    Cause::Scope,
    Cause::NameTaken,
    Cause::Count,
    Cause::NoAtom,
    Cause::NotKnown,
    Cause::Mismatch,
    Cause::Mode,
    Cause::Bracket,
    Cause::NotDurable,
    Cause::NotPersistent,
    Cause::HasToken,
    Cause::CrashBlock,
    Cause::PathEnd,
    Cause::NoStep,
    Cause::WrongPoint,
    Cause::NotAPlus,
    Cause::Negative,
    Cause::Wide,
    Cause::NotContradiction,
    Cause::BadAxiom,
    Cause::Excluded,
    Cause::Missing,
    Cause::Hole,
];

const WALK_CAUSES: [WalkCause; 8] = [
    WalkCause::Repeated,
    WalkCause::NotCalled,
    WalkCause::ActedAlready,
    WalkCause::NotActed,
    WalkCause::WrongReply,
    WalkCause::Order,
    WalkCause::Missing,
    WalkCause::BadChoice,
];

/// The cause of this name.
pub(crate) fn cause_of(name: &str) -> Result<Cause> {
    for cause in &CAUSES[..] {
        if cause.name() == name {
            return Ok(*cause);
        }
    }
    bail!("no cause: {name}")
}

/// The cause of this name that a walk has.
pub(crate) fn walk_cause_of(name: &str) -> Result<WalkCause> {
    for cause in &WALK_CAUSES[..] {
        if cause.name() == name {
            return Ok(*cause);
        }
    }
    bail!("no cause of a walk: {name}")
}

/// The code of this name, of those that a table has.
pub(crate) fn code_of(name: &str) -> Result<Code> {
    match name {
        "Unexpected" => Ok(Code::Unexpected),
        "TooLong" => Ok(Code::TooLong),
        "Disks" => Ok(Code::Disks),
        _ => bail!("no code: {name}"),
    }
}

/// The reason of this name, of those that a table has.
pub(crate) fn reason_of(name: &str) -> Result<Reason> {
    match name {
        "Race" => Ok(Reason::Race),
        _ => bail!("no reason: {name}"),
    }
}
