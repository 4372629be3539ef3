//! The cases of a table.

use crate::order::are_in_order;
use anyhow::{Result, bail};
use case_table::Meaning;
use gv_base::List;
use gv_linear::{Linear, Row, check_linear};
use std::alloc::Global;

// Rows with their factors, and how many unknowns they have.
#[derive(Drop)]
struct Case {
    unknowns: u32,
    rows: Vec<Row>,
    factors: Vec<i128>,
}

// An item: its coefficient, `x`, and the number of its unknown.
fn item_of(text: &str) -> Result<(u32, i128)> {
    let Some((coefficient, unknown)) = text.split_once("x") else {
        bail!("no item: {text}");
    };
    Ok((unknown.parse::<u32>()?, coefficient.parse::<i128>()?))
}

// The items and the constant of a row, separated by spaces.
fn sum_of(alloc: Global, same: bool, text: &str) -> Result<Row> {
    let mut items = Vec::new(alloc);
    let mut constant = 0;
    for part in text.split(' ') {
        if part.contains("x") {
            items.push(item_of(part)?)?;
        } else {
            constant = part.parse::<i128>()?;
        }
    }
    Ok(Row {
        same,
        items: List::from_vec(items),
        constant,
    })
}

// A row: its sum, whether it is 0 or at least 0, and its factor.
fn row_of(alloc: Global, text: &str) -> Result<(Row, i128)> {
    let Some((said, factor)) = text.split_once(" 0 by ") else {
        bail!("no row: {text}");
    };
    let factor = factor.parse::<i128>()?;
    if let Some(sum) = said.strip_suffix(" >=") {
        return Ok((sum_of(alloc, false, sum)?, factor));
    }
    match said.strip_suffix(" =") {
        Some(sum) => Ok((sum_of(alloc, true, sum)?, factor)),
        None => bail!("no row: {text}"),
    }
}

// The number of unknowns and the rows of a case, separated by semicolons.
fn case_of(alloc: Global, text: &str) -> Result<Case> {
    let (unknowns, rest) = match text.split_once("; ") {
        Some((unknowns, rest)) => (unknowns, rest),
        None => (text, ""),
    };
    let mut case = Case {
        unknowns: unknowns.parse::<u32>()?,
        rows: Vec::new(alloc),
        factors: Vec::new(alloc),
    };
    if rest.is_empty() {
        return Ok(case);
    }
    for said in rest.split("; ") {
        let (row, factor) = row_of(alloc, said)?;
        case.rows.push(row)?;
        case.factors.push(factor)?;
    }
    Ok(case)
}

// An answer as a table writes it.
fn answer_text(alloc: Global, answer: Linear) -> Result<String> {
    Ok(match answer {
        Linear::Yes => format!(in alloc; "Yes")?,
        Linear::NotContradiction => format!(in alloc; "NotContradiction")?,
        Linear::Negative { row } => format!(in alloc; "Negative row {row}")?,
        Linear::Wide { row, column } => format!(in alloc; "Wide row {row} column {column}")?,
    })
}

// What the check of a case's factors answers, as a table writes it.
fn answered(alloc: Global, case: &Case) -> Result<String> {
    let rows = case.rows.as_slice();
    let factors = case.factors.as_slice();
    if rows.len() != factors.len() || rows.len() > u32::MAX as usize {
        bail!("too many rows");
    }
    if !are_in_order(rows, case.unknowns) {
        bail!("the unknowns of a row don't ascend, or there are more than told");
    }
    answer_text(alloc, check_linear(rows, factors, case.unknowns))
}

/// Texts that are rows with their factors.
#[derive(Clone, Copy, Debug)]
pub(crate) struct Rows;

impl Meaning for Rows {
    fn new(_alloc: Global) -> Result<Rows> {
        Ok(Rows)
    }

    fn take(&mut self, _alloc: Global, _line: &str) -> Result<bool> {
        Ok(false)
    }

    fn other(&self, alloc: Global, text: &str, want: &str) -> Result<Option<String>> {
        let answer = answered(alloc, &case_of(alloc, text)?)?;
        Ok(if answer.as_str() == want {
            None
        } else {
            Some(answer)
        })
    }
}
