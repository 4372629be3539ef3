//! The cases of a table.

use anyhow::{Context, Result, bail};
use std::alloc::Global;
use std::process::ExitCode;
use std::rt::{Env, Files};
use std::{env, fs};

/// What the texts of a table mean. This project's own.
pub trait Meaning: Drop {
    /// What they mean at the table's head.
    fn new(alloc: Global) -> Result<Self>;

    /// Takes a line that says what the texts below it mean, or answers false where it is none.
    fn take(&mut self, alloc: Global, line: &str) -> Result<bool>;

    /// What a text gives, where that isn't what the table wants.
    fn other(&self, alloc: Global, text: &str, want: &str) -> Result<Option<String>>;
}

// The name, the text and the answer of a case.
fn case_of<'a>(line: &'a str) -> Option<(&'a str, &'a str, &'a str)> {
    let (name, rest) = line.split_once(": ")?;
    let (text, want) = rest.split_once(" => ")?;
    Some((name, text, want))
}

// Checks the cases of a table, prints those that fail, and tells whether none does.
fn check_table<M: Meaning>(
    rt: &(impl Print + Eprint + AllocGlobal),
    file: &str,
    table: &str,
) -> Result<bool> {
    let mut meaning = M::new(rt.alloc())?;
    let mut cases = 0u64;
    let mut passed = 0u64;
    for line in table.lines() {
        if line.is_empty() || line.starts_with("//") || meaning.take(rt.alloc(), line)? {
            continue;
        }
        let Some((name, text, want)) = case_of(line) else {
            bail!("no line of a table: {line}");
        };
        cases = cases.saturating_add(1);
        let other = meaning.other(rt.alloc(), text, want);
        match other.context(format_args!("{name}"))? {
            None => passed = passed.saturating_add(1),
            Some(answer) => eprintln!(rt; "{name}: {text} gives {answer}, and not {want}")?,
        }
    }
    println!(rt; "{file}: {passed} of {cases} cases")?;
    Ok(passed == cases)
}

/// Checks the tables that the program's words name. Prints of each how many of its cases pass, and on standard error each
/// case that doesn't, with what its text gives. The status is 1 where one fails. A line that is none of a table, and a text
/// that the program can't make sense of, are errors.
pub fn check_tables<M: Meaning>(
    rt: &(impl Env + Files + Print + Eprint + AllocGlobal),
) -> Result<ExitCode> {
    let mut code = ExitCode::SUCCESS;
    for file in env::args(rt)?.skip(1) {
        let table = fs::read_to_string(rt, file.as_str())?;
        let passes = check_table::<M>(rt, file.as_str(), table.as_str());
        if !passes.context(format_args!("{file}"))? {
            code = ExitCode::FAILURE;
        }
    }
    Ok(code)
}
