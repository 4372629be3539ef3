//! Places of commands.

use anyhow::{Result, bail};
use gv_base::Place;

// Where a command stands of which the text says nothing.
const NOWHERE: Place = Place { line: 0, column: 0 };

/// A line without the place ` @LINE:COLUMN` at its end, and the place; 0:0 where it says none.
pub(crate) fn placed(text: &str) -> Result<(&str, Place)> {
    let Some((rest, said)) = text.split_once(" @") else {
        return Ok((text, NOWHERE));
    };
    let Some((line, column)) = said.split_once(':') else {
        bail!("no place: {said}");
    };
    let line = line.parse::<u32>()?;
    let column = column.parse::<u32>()?;
    Ok((rest, Place { line, column }))
}
