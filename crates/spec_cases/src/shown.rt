//! Trees as a table writes them.
//!
//! A term is shown as the column where it begins, and then its nodes: a variable as its name, an operator with its column before
//! its parts. A name stands with its byte.

use anyhow::{Context, Result, bail};
use gv_base::{Place, Refusal, place_of};
use gv_specread::{BodyTree, DisksTree, OpTree, PlacedSort, Span, SpecTree};
use gv_termread::{PlacedTerm, Places};
use gv_terms::RawTerm;
use std::alloc::Global;

fn push_span(out: &mut Vec<u8>, text: &[u8], span: Span) -> Result<()> {
    let range = span.start as usize..span.end as usize;
    let bytes = text.get(range).context("a span of the text")?;
    out.extend_from_slice(bytes)?;
    Ok(())
}

fn column_of(text: &[u8], at: u32) -> Result<u32> {
    if text.len() > 1 << 24 || at as usize > text.len() {
        bail!("no byte of the text: {at}");
    }
    Ok(place_of(text, at).column)
}

fn push_node(
    alloc: Global,
    out: &mut Vec<u8>,
    text: &[u8],
    term: &RawTerm,
    places: &Places,
) -> Result<()> {
    let Places::At(start, below) = places;
    match term {
        RawTerm::Variable(name) => out.extend_from_slice(name.as_slice())?,
        RawTerm::Apply(operator, parts) => {
            let column = column_of(text, *start)?;
            let head = format!(in alloc; "{operator:?}@{column}(")?;
            out.extend_from_slice(head.as_bytes())?;
            let mut first = true;
            for (part, place) in parts.as_slice().iter().zip(below.as_slice()) {
                if !first {
                    out.push(b' ')?;
                }
                first = false;
                push_node(alloc, out, text, part, place)?;
            }
            out.push(b')')?;
        }
    }
    Ok(())
}

/// The column where a term begins, and its nodes.
pub(crate) fn push_term(
    alloc: Global,
    out: &mut Vec<u8>,
    text: &[u8],
    term: &PlacedTerm,
) -> Result<()> {
    let column = column_of(text, term.start)?;
    let head = format!(in alloc; "{column} ")?;
    out.extend_from_slice(head.as_bytes())?;
    push_node(alloc, out, text, &term.term, &term.places)
}

/// The place and the code of a refusal.
pub(crate) fn push_refusal(alloc: Global, out: &mut Vec<u8>, refusal: &Refusal) -> Result<()> {
    match refusal {
        Refusal::NoMemory => bail!("out of memory"),
        Refusal::At { place, code } => {
            let Place { line, column } = *place;
            let at = format!(in alloc; "{line}:{column} ")?;
            out.extend_from_slice(at.as_bytes())?;
            out.extend_from_slice(code.name().as_bytes())?;
        }
    }
    Ok(())
}

fn push_sort(alloc: Global, out: &mut Vec<u8>, sort: PlacedSort) -> Result<()> {
    let PlacedSort { start, sort } = sort;
    let shown = format!(in alloc; ":{sort:?}@{start} ")?;
    out.extend_from_slice(shown.as_bytes())?;
    Ok(())
}

fn push_body(alloc: Global, out: &mut Vec<u8>, text: &[u8], body: &BodyTree) -> Result<()> {
    let start = body.start;
    let head = format!(in alloc; "body@{start}")?;
    out.extend_from_slice(head.as_bytes())?;
    for pick in body.picks.as_slice() {
        out.extend_from_slice(b" pick ")?;
        push_span(out, text, pick.name)?;
        out.push(b'<')?;
        push_term(alloc, out, text, &pick.bound)?;
    }
    for assign in body.assigns.as_slice() {
        out.push(b' ')?;
        push_span(out, text, assign.name)?;
        out.extend_from_slice(b":=")?;
        push_term(alloc, out, text, &assign.term)?;
    }
    if let Some(reply) = &body.reply {
        let start = reply.start;
        let head = format!(in alloc; " reply@{start} ")?;
        out.extend_from_slice(head.as_bytes())?;
        push_term(alloc, out, text, &reply.term)?;
    }
    Ok(())
}

fn push_op(alloc: Global, out: &mut Vec<u8>, text: &[u8], op: &OpTree) -> Result<()> {
    push_span(out, text, op.name)?;
    out.push(b'(')?;
    for param in op.params.as_slice() {
        push_span(out, text, param.name)?;
        push_sort(alloc, out, param.sort)?;
    }
    out.push(b')')?;
    if let Some(sort) = op.returns {
        push_sort(alloc, out, sort)?;
    }
    if let Some(allowed) = &op.allowed {
        push_term(alloc, out, text, allowed)?;
        out.push(b' ')?;
    }
    push_body(alloc, out, text, &op.body)
}

fn push_disks(alloc: Global, out: &mut Vec<u8>, tree: &SpecTree) -> Result<()> {
    let start = tree.disks_start;
    let disks = match tree.disks {
        DisksTree::Zero => format!(in alloc; " disks@{start} none")?,
        DisksTree::One(n) => format!(in alloc; " disks@{start} one {}@{}", n.value, n.start)?,
        DisksTree::Two(n) => format!(in alloc; " disks@{start} two {}@{}", n.value, n.start)?,
    };
    out.extend_from_slice(disks.as_bytes())?;
    Ok(())
}

/// A whole specification; `; ` stands between its parts.
pub(crate) fn push_spec(
    alloc: Global,
    out: &mut Vec<u8>,
    text: &[u8],
    tree: &SpecTree,
) -> Result<()> {
    push_span(out, text, tree.name)?;
    push_disks(alloc, out, tree)?;
    for field in tree.fields.as_slice() {
        out.extend_from_slice(b"; ")?;
        push_span(out, text, field.name)?;
        push_sort(alloc, out, field.sort)?;
        if field.leased {
            out.extend_from_slice(b"leased ")?;
        }
        push_term(alloc, out, text, &field.first)?;
    }
    for op in tree.ops.as_slice() {
        out.extend_from_slice(b"; ")?;
        push_op(alloc, out, text, op)?;
    }
    out.extend_from_slice(b"; ")?;
    push_body(alloc, out, text, &tree.crash)
}
