//! What stands between the words and the signs of a script's commands, as far as it was read.

use crate::facts::raw_term;
use anyhow::{Result, bail};
use gv_certs::{Cert, Factored, Have};
use gv_termread::bytes_from;
use gv_terms::RawTerm;
use std::alloc::Global;

/// A stretch of a text, from one of its bytes on and before another.
#[derive(Clone, Copy, Debug)]
pub(crate) struct Span {
    pub(crate) start: u32,
    pub(crate) end: u32,
}

/// What was read: a token or a term by its bytes alone, and what certificates have; all else is passed over.
#[derive(Drop)]
pub(crate) enum Part {
    Span(Span),
    Terms(Vec<RawTerm>),
    Within(Option<RawTerm>),
    Row(Factored),
    Rows(Vec<Factored>),
    Cert(Cert),
    Steps(Vec<Have>),
    Other,
}

/// Takes off the last part, which is a token or a term.
pub(crate) fn last_span(parts: &mut Vec<Part>) -> Result<Span> {
    match parts.pop() {
        Some(Part::Span(span)) => Ok(span),
        _ => bail!("no token"),
    }
}

/// Takes off the last parts, so many, which are tokens and terms, and gives what they span.
pub(crate) fn joined(parts: &mut Vec<Part>, count: usize) -> Result<Span> {
    let Span { mut start, end } = last_span(parts)?;
    for _ in 1..count {
        start = last_span(parts)?.start;
    }
    Ok(Span { start, end })
}

/// Takes off the last part, which is a term.
pub(crate) fn one_term(alloc: Global, text: &[u8], parts: &mut Vec<Part>) -> Result<RawTerm> {
    let Span { start, end } = last_span(parts)?;
    raw_term(alloc, bytes_from(text, start, end))
}

/// Takes off the last part, which is a list of terms.
pub(crate) fn terms(parts: &mut Vec<Part>) -> Result<Vec<RawTerm>> {
    match parts.pop() {
        Some(Part::Terms(terms)) => Ok(terms),
        _ => bail!("no terms"),
    }
}

/// Takes off the last part, which is a term that may be missing.
pub(crate) fn within(parts: &mut Vec<Part>) -> Result<Option<RawTerm>> {
    match parts.pop() {
        Some(Part::Within(term)) => Ok(term),
        _ => bail!("no term"),
    }
}

/// Takes off the last part, which is a formula with its factor.
pub(crate) fn row(parts: &mut Vec<Part>) -> Result<Factored> {
    match parts.pop() {
        Some(Part::Row(row)) => Ok(row),
        _ => bail!("no row"),
    }
}

/// Takes off the last part, which is a list of such.
pub(crate) fn rows(parts: &mut Vec<Part>) -> Result<Vec<Factored>> {
    match parts.pop() {
        Some(Part::Rows(rows)) => Ok(rows),
        _ => bail!("no rows"),
    }
}

/// Takes off the last part, which is a certificate.
pub(crate) fn cert(parts: &mut Vec<Part>) -> Result<Cert> {
    match parts.pop() {
        Some(Part::Cert(cert)) => Ok(cert),
        _ => bail!("no certificate"),
    }
}

/// Takes off the last part, which is a list of formulas, each with its certificate.
pub(crate) fn steps(parts: &mut Vec<Part>) -> Result<Vec<Have>> {
    match parts.pop() {
        Some(Part::Steps(steps)) => Ok(steps),
        _ => bail!("no steps"),
    }
}
