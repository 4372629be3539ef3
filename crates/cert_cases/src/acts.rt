//! What each act of the grammar makes of the parts before it, which it takes off from the last on.

use crate::parts::{
    Part, Span, cert, joined, last_span, one_term, row, rows, steps, terms, within,
};
use anyhow::{Context, Result, bail};
use gv_base::List;
use gv_certs::{Cert, Factored, Have};
use gv_scriptsyntax::generated::script_acts::{KIND_TERM, MADE, TAKEN};
use gv_scriptsyntax::generated::script_table::{
    ACT_AXIOM, ACT_BY_CASES, ACT_CONTRA, ACT_FACTOR, ACT_GIVEN, ACT_IN_TERMS, ACT_LINEAR,
    ACT_NEGATIVE, ACT_NEXT_FACTOR, ACT_NEXT_TERM, ACT_NO_FACTORS, ACT_NO_HAVES, ACT_NO_TERM,
    ACT_NO_TERMS, ACT_POSITIVE, ACT_STEP_HAVE, ACT_STEPS, ACT_SUBST, ACT_TERM, ACT_WORD_TERM,
};
use gv_termread::bytes_from;
use gv_terms::{Operator, RawTerm};
use std::alloc::Global;

/// Takes off tokens, so many.
pub(crate) fn pass(parts: &mut Vec<Part>, count: usize) -> Result<()> {
    for _ in 0..count {
        last_span(parts)?;
    }
    Ok(())
}

// The bytes of a number as they stand in the text, with the sign before them.
fn signed(alloc: Global, sign: &str, text: &[u8], number: Span) -> Result<i128> {
    let digits = String::from_utf8_lossy(alloc, bytes_from(text, number.start, number.end))?;
    let said = format!(in alloc; "{sign}{digits}")?;
    Ok(said.as_str().parse::<i128>()?)
}

// A formula with its factor, behind the sign that it may have.
fn factored(alloc: Global, sign: &str, text: &[u8], parts: &mut Vec<Part>) -> Result<Factored> {
    let formula = one_term(alloc, text, parts)?;
    let number = last_span(parts)?;
    Ok(Factored {
        factor: signed(alloc, sign, text, number)?,
        formula,
    })
}

fn given(text: &[u8], parts: &mut Vec<Part>) -> Result<Cert> {
    let Span { start, end } = last_span(parts)?;
    match bytes_from(text, start, end) {
        b"known" => Ok(Cert::Known),
        b"compute" => Ok(Cert::Compute),
        _ => bail!("no certificate"),
    }
}

fn axiom(alloc: Global, text: &[u8], parts: &mut Vec<Part>) -> Result<Cert> {
    let listed = terms(parts)?;
    let number = signed(alloc, "", text, last_span(parts)?)?;
    pass(parts, 1)?;
    Ok(Cert::Axiom {
        number: u32::try_from(number)?,
        parts: List::from_vec(listed),
    })
}

// The two sides of an equation.
fn sides_of(equation: RawTerm) -> Result<(RawTerm, RawTerm)> {
    let RawTerm::Apply(Operator::Equal, sides) = equation else {
        bail!("no equation");
    };
    let mut sides = sides.into_vec();
    let to = sides.pop().context("no right side")?;
    let from = sides.pop().context("no left side")?;
    Ok((from, to))
}

fn subst(alloc: Global, text: &[u8], parts: &mut Vec<Part>) -> Result<Cert> {
    let within = within(parts)?;
    let (from, to) = sides_of(one_term(alloc, text, parts)?)?;
    pass(parts, 1)?;
    Ok(match within {
        Some(within) => Cert::SubstIn { from, to, within },
        None => Cert::Subst { from, to },
    })
}

fn contra(alloc: Global, text: &[u8], parts: &mut Vec<Part>) -> Result<Cert> {
    let opposite = one_term(alloc, text, parts)?;
    pass(parts, 1)?;
    Ok(Cert::Contra(opposite))
}

fn linear(parts: &mut Vec<Part>) -> Result<Cert> {
    pass(parts, 1)?;
    let rows = rows(parts)?;
    pass(parts, 2)?;
    let sums = terms(parts)?;
    pass(parts, 2)?;
    Ok(Cert::Linear {
        sums: List::from_vec(sums),
        rows: List::from_vec(rows),
    })
}

fn by_cases(alloc: Global, text: &[u8], parts: &mut Vec<Part>) -> Result<Cert> {
    pass(parts, 1)?;
    let fails = Box::new(alloc, cert(parts)?)?;
    pass(parts, 2)?;
    let holds = Box::new(alloc, cert(parts)?)?;
    pass(parts, 1)?;
    let formula = one_term(alloc, text, parts)?;
    pass(parts, 1)?;
    Ok(Cert::Cases {
        formula,
        holds,
        fails,
    })
}

fn by_steps(alloc: Global, parts: &mut Vec<Part>) -> Result<Cert> {
    pass(parts, 1)?;
    let last = Box::new(alloc, cert(parts)?)?;
    let steps = steps(parts)?;
    pass(parts, 2)?;
    Ok(Cert::Steps {
        steps: List::from_vec(steps),
        last,
    })
}

// A formula with its certificate.
fn step(alloc: Global, text: &[u8], parts: &mut Vec<Part>) -> Result<Have> {
    pass(parts, 1)?;
    let cert = cert(parts)?;
    pass(parts, 1)?;
    let formula = one_term(alloc, text, parts)?;
    pass(parts, 1)?;
    Ok(Have { formula, cert })
}

// Terms with one more behind them, and the tokens between.
fn more_terms(alloc: Global, text: &[u8], parts: &mut Vec<Part>, between: usize) -> Result<Part> {
    let last = one_term(alloc, text, parts)?;
    pass(parts, between)?;
    let mut terms = terms(parts)?;
    terms.push(last)?;
    Ok(Part::Terms(terms))
}

// The same of formulas with their factors.
fn more_rows(parts: &mut Vec<Part>, between: usize) -> Result<Part> {
    let last = row(parts)?;
    pass(parts, between)?;
    let mut rows = rows(parts)?;
    rows.push(last)?;
    Ok(Part::Rows(rows))
}

// The same of steps.
fn more_steps(alloc: Global, text: &[u8], parts: &mut Vec<Part>) -> Result<Part> {
    let last = step(alloc, text, parts)?;
    let mut steps = steps(parts)?;
    steps.push(last)?;
    Ok(Part::Steps(steps))
}

// Terms in parentheses.
fn in_parens(parts: &mut Vec<Part>) -> Result<Part> {
    pass(parts, 1)?;
    let terms = terms(parts)?;
    pass(parts, 1)?;
    Ok(Part::Terms(terms))
}

// A term behind a word.
fn behind_word(alloc: Global, text: &[u8], parts: &mut Vec<Part>) -> Result<Part> {
    let term = one_term(alloc, text, parts)?;
    pass(parts, 1)?;
    Ok(Part::Within(Some(term)))
}

fn negative(alloc: Global, text: &[u8], parts: &mut Vec<Part>) -> Result<Part> {
    let row = factored(alloc, "-", text, parts)?;
    pass(parts, 1)?;
    Ok(Part::Row(row))
}

// What an act that has nothing to do with certificates makes.
fn other(parts: &mut Vec<Part>, act: u8) -> Result<Part> {
    let taken = TAKEN.get(act as usize).copied().unwrap_or(0) as usize;
    if MADE.get(act as usize).copied() == Some(KIND_TERM) {
        return Ok(Part::Span(joined(parts, taken)?));
    }
    parts.truncate(parts.len().saturating_sub(taken));
    Ok(Part::Other)
}

/// What an act makes of the last parts, but of a command.
pub(crate) fn made(alloc: Global, text: &[u8], parts: &mut Vec<Part>, act: u8) -> Result<Part> {
    match act {
        ACT_GIVEN => Ok(Part::Cert(given(text, parts)?)),
        ACT_AXIOM => Ok(Part::Cert(axiom(alloc, text, parts)?)),
        ACT_SUBST => Ok(Part::Cert(subst(alloc, text, parts)?)),
        ACT_CONTRA => Ok(Part::Cert(contra(alloc, text, parts)?)),
        ACT_LINEAR => Ok(Part::Cert(linear(parts)?)),
        ACT_BY_CASES => Ok(Part::Cert(by_cases(alloc, text, parts)?)),
        ACT_STEPS => Ok(Part::Cert(by_steps(alloc, parts)?)),
        ACT_NO_TERMS => Ok(Part::Terms(Vec::new(alloc))),
        ACT_TERM => more_terms(alloc, text, parts, 0),
        ACT_NEXT_TERM => more_terms(alloc, text, parts, 1),
        ACT_IN_TERMS => in_parens(parts),
        ACT_NO_TERM => Ok(Part::Within(None)),
        ACT_WORD_TERM => behind_word(alloc, text, parts),
        ACT_POSITIVE => Ok(Part::Row(factored(alloc, "", text, parts)?)),
        ACT_NEGATIVE => negative(alloc, text, parts),
        ACT_NO_FACTORS => Ok(Part::Rows(Vec::new(alloc))),
        ACT_FACTOR => more_rows(parts, 0),
        ACT_NEXT_FACTOR => more_rows(parts, 1),
        ACT_NO_HAVES => Ok(Part::Steps(Vec::new(alloc))),
        ACT_STEP_HAVE => more_steps(alloc, text, parts),
        _ => other(parts, act),
    }
}
