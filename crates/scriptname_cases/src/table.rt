//! The cases of a table.

use anyhow::{Context, Result, bail};
use case_programs::Reading;
use case_table::{Meaning, unescaped};
use gv_base::{List, Place, Refusal};
use gv_lang::Program;
use gv_scripts::read_script;
use gv_specs::{Spec, read_spec};
use std::alloc::Global;

/// The most bytes of a text.
const MOST: usize = 1 << 24;

/// What the texts below a line of a table mean: the program, the specification and the texts around each that stand above them.
#[derive(Drop)]
pub(crate) struct Table {
    reading: Option<Reading>,
    program: Program,
    spec: Spec,
    before: Vec<u8>,
    behind: Vec<u8>,
}

fn refusal_text(alloc: Global, refusal: Refusal) -> Result<String> {
    match refusal {
        Refusal::NoMemory => bail!("out of memory"),
        Refusal::At { place, code } => {
            let Place { line, column } = place;
            Ok(format!(in alloc; "{line}:{column} {}", code.name())?)
        }
    }
}

fn specification(alloc: Global, text: &str) -> Result<Spec> {
    if text.len() > MOST {
        bail!("a specification of more than {MOST} bytes");
    }
    match read_spec(alloc, text.as_bytes()) {
        Ok(spec) => Ok(spec),
        Err(refusal) => {
            let answer = refusal_text(alloc, refusal)?;
            bail!("the specification is refused: {answer}")
        }
    }
}

fn no_program(alloc: Global) -> Program {
    Program {
        structs: List::new(alloc),
        procs: List::new(alloc),
        recover: 0,
        ops: List::new(alloc),
    }
}

impl Table {
    // The next line of the program that is being read.
    fn go_on(&mut self, alloc: Global, reading: Reading, line: &str) -> Result<()> {
        if line == "done" {
            self.program = reading.finish()?;
            return Ok(());
        }
        let mut more = reading;
        more.take(alloc, line.trim_start())?;
        self.reading = Some(more);
        Ok(())
    }

    // The texts before and behind each text.
    fn stand_around(&mut self, alloc: Global, said: &str) -> Result<()> {
        let (before, behind) = match said.split_once(" @ ") {
            Some((before, behind)) => (before, behind),
            None if said == "nothing" => ("", ""),
            None => bail!("no text around"),
        };
        self.before = unescaped(alloc, before)?;
        self.behind = unescaped(alloc, behind)?;
        Ok(())
    }

    // A line that begins a program, gives the specification or says what stands around the texts.
    fn begin(&mut self, alloc: Global, line: &str) -> Result<bool> {
        if let Some(text) = line.strip_prefix("setting ") {
            self.spec = specification(alloc, text)?;
            return Ok(true);
        }
        if let Some(said) = line.strip_prefix("around ") {
            self.stand_around(alloc, said)?;
            return Ok(true);
        }
        if line == "program" {
            self.reading = Some(Reading::new(alloc));
            return Ok(true);
        }
        Ok(false)
    }

    // The whole text of a case.
    fn text_of(&self, alloc: Global, said: &str) -> Result<Vec<u8>> {
        let mut text = Vec::new(alloc);
        text.extend_from_slice(&self.before)?;
        text.extend_from_slice(&unescaped(alloc, said)?)?;
        text.extend_from_slice(&self.behind)?;
        Ok(text)
    }

    fn answer(&self, alloc: Global, said: &str) -> Result<String> {
        let text = self.text_of(alloc, said)?;
        if text.len() > MOST {
            bail!("a text of more than {MOST} bytes");
        }
        match read_script(alloc, &text, &self.spec, &self.program) {
            Ok(_) => Ok(String::from_str(alloc, "script")?),
            Err(refusal) => refusal_text(alloc, refusal),
        }
    }
}

impl Meaning for Table {
    fn new(alloc: Global) -> Result<Table> {
        Ok(Table {
            reading: None,
            program: no_program(alloc),
            spec: specification(alloc, "spec none; disks 0; crash { }")?,
            before: Vec::new(alloc),
            behind: Vec::new(alloc),
        })
    }

    fn take(&mut self, alloc: Global, line: &str) -> Result<bool> {
        match self.reading.take() {
            Some(reading) => {
                self.go_on(alloc, reading, line)
                    .context(format_args!("{line}"))?;
                Ok(true)
            }
            None => self.begin(alloc, line).context(format_args!("{line}")),
        }
    }

    fn other(&self, alloc: Global, text: &str, want: &str) -> Result<Option<String>> {
        let answer = self.answer(alloc, text)?;
        if answer.as_str() == want {
            return Ok(None);
        }
        Ok(Some(answer))
    }
}
