//! Expressions over locals.
//!
//! Words are separated by spaces: `true`, `false`, `nil`, `nilslice`, a number or a local, with `!` or `^` before it or
//! not. Operators stand between them and are taken from the left, whatever they are: `a + b * c` is the product.

use crate::names::Names;
use anyhow::{Result, bail};
use gv_lang::{Binary, Pure, Unary};
use std::alloc::Global;

fn plain(names: Names<'_>, word: &str) -> Result<Pure> {
    Ok(match word {
        "true" => Pure::Bool(true),
        "false" => Pure::Bool(false),
        "nil" => Pure::Nil,
        "nilslice" => Pure::NilSlice,
        _ => match word.parse::<u64>() {
            Ok(n) => Pure::Word(n),
            Err(_) => Pure::Local(names.local(word)?),
        },
    })
}

fn operand(alloc: Global, names: Names<'_>, word: &str) -> Result<Pure> {
    if let Some(rest) = word.strip_prefix("!") {
        let part = Box::new(alloc, plain(names, rest)?)?;
        return Ok(Pure::Unary(Unary::Not, part));
    }
    match word.strip_prefix("^") {
        Some(rest) => {
            let part = Box::new(alloc, plain(names, rest)?)?;
            Ok(Pure::Unary(Unary::Complement, part))
        }
        None => plain(names, word),
    }
}

fn operator_of(word: &str) -> Option<Binary> {
    match word {
        "||" => Some(Binary::Or),
        "&&" => Some(Binary::And),
        "==" => Some(Binary::Equal),
        "<" => Some(Binary::Less),
        "<=" => Some(Binary::AtMost),
        "+" => Some(Binary::Plus),
        "-" => Some(Binary::Minus),
        "|" => Some(Binary::BitOr),
        "^" => Some(Binary::BitXor),
        "*" => Some(Binary::Times),
        "<<" => Some(Binary::ShiftLeft),
        ">>" => Some(Binary::ShiftRight),
        "&" => Some(Binary::BitAnd),
        "&^" => Some(Binary::BitClear),
        _ => None,
    }
}

// What stood before, the operator and what stands behind it.
fn joined(
    alloc: Global,
    before: Option<Pure>,
    operator: Option<Binary>,
    behind: Pure,
) -> Result<Pure> {
    match (before, operator) {
        (None, None) => Ok(behind),
        (Some(a), Some(operator)) => {
            let a = Box::new(alloc, a)?;
            Ok(Pure::Binary(operator, a, Box::new(alloc, behind)?))
        }
        _ => bail!("no operator between two operands, or no operand before one"),
    }
}

/// The expression that is written so.
pub(crate) fn expression(alloc: Global, names: Names<'_>, text: &str) -> Result<Pure> {
    let mut before = None;
    let mut operator = None;
    for word in text.split(' ') {
        match (operator_of(word), operator) {
            (Some(found), None) => operator = Some(found),
            (Some(_), Some(_)) => bail!("two operators: {text}"),
            (None, _) => {
                let e = operand(alloc, names, word)?;
                before = Some(joined(alloc, before.take(), operator.take(), e)?);
            }
        }
    }
    match (before, operator) {
        (Some(e), None) => Ok(e),
        _ => bail!("no expression: {text}"),
    }
}

/// Expressions with a comma and a space between them, or none.
pub(crate) fn expressions(alloc: Global, names: Names<'_>, text: &str) -> Result<Vec<Pure>> {
    let mut es = Vec::new(alloc);
    if text.is_empty() {
        return Ok(es);
    }
    for part in text.split(", ") {
        es.push(expression(alloc, names, part)?)?;
    }
    Ok(es)
}
