//! The cases of a table.

use crate::runs::run_text;
use crate::tries::tries_text;
use anyhow::{Context, Result, bail};
use case_programs::Reading;
use case_table::Meaning;
use gv_base::{List, Place, Refusal};
use gv_lang::{Program, well_shaped};
use gv_replay::read_schedule;
use gv_specs::{Spec, read_spec};
use std::alloc::Global;

// What is asked of a schedule.
#[derive(Clone, Copy)]
enum Form {
    // its history, and how it ends
    Run,
    // what comes of each event
    Tries,
}

// Which shape a program is to have.
#[derive(Clone, Copy)]
enum Shape {
    Good,
    Other,
}

/// What the texts below a line of a table mean: the program and the specification that stand above them, and what is asked.
#[derive(Drop)]
pub(crate) struct Table {
    reading: Option<(Shape, Reading)>,
    program: Program,
    spec: Spec,
    form: Form,
}

// The bytes of a text whose lines have `; ` between them.
fn lines(alloc: Global, said: &str) -> Result<Vec<u8>> {
    let mut text = Vec::new(alloc);
    for part in said.split("; ") {
        text.extend_from_slice(part.as_bytes())?;
        text.push(b'\n')?;
    }
    Ok(text)
}

fn refused(refusal: Refusal) -> Result<()> {
    match refusal {
        Refusal::NoMemory => bail!("out of memory"),
        Refusal::At { place, code } => {
            let Place { line, column } = place;
            let name = code.name();
            bail!("refused at {line}:{column}: {name}")
        }
    }
}

fn specification(alloc: Global, text: &str) -> Result<Spec> {
    if text.len() >= u32::MAX as usize {
        bail!("a text too long");
    }
    match read_spec(alloc, text.as_bytes()) {
        Ok(spec) => Ok(spec),
        Err(refusal) => {
            refused(refusal)?;
            bail!("refused")
        }
    }
}

fn no_program(alloc: Global) -> Program {
    Program {
        structs: List::new(alloc),
        procs: List::new(alloc),
        recover: 0,
        ops: List::new(alloc),
    }
}

fn has_shape(program: &Program, shape: Shape) -> bool {
    match shape {
        Shape::Good => well_shaped(program),
        Shape::Other => !well_shaped(program),
    }
}

// The program that has been read, which must have the shape that its first line says.
fn finished(shape: Shape, reading: Reading) -> Result<Program> {
    let program = reading.finish()?;
    if !has_shape(&program, shape) {
        bail!("the program's shape is not as said");
    }
    Ok(program)
}

impl Table {
    // The next line of the program that is being read.
    fn go_on(&mut self, alloc: Global, shape: Shape, reading: Reading, line: &str) -> Result<()> {
        if line == "done" {
            self.program = finished(shape, reading)?;
            return Ok(());
        }
        let mut more = reading;
        more.take(alloc, line.trim_start())?;
        self.reading = Some((shape, more));
        Ok(())
    }

    // A line that begins a program, gives the specification or says what is asked.
    fn begin(&mut self, alloc: Global, line: &str) -> Result<bool> {
        if let Some(text) = line.strip_prefix("setting ") {
            self.spec = specification(alloc, text)?;
            return Ok(true);
        }
        match line {
            "program" => self.reading = Some((Shape::Good, Reading::new(alloc))),
            "program of no good shape" => self.reading = Some((Shape::Other, Reading::new(alloc))),
            "form run" => self.form = Form::Run,
            "form tries" => self.form = Form::Tries,
            _ => return Ok(false),
        }
        Ok(true)
    }

    fn take_line(&mut self, alloc: Global, line: &str) -> Result<bool> {
        match self.reading.take() {
            Some((shape, reading)) => {
                self.go_on(alloc, shape, reading, line)?;
                Ok(true)
            }
            None => self.begin(alloc, line),
        }
    }

    fn answer(&self, alloc: Global, said: &str) -> Result<Vec<u8>> {
        let text = lines(alloc, said)?;
        if text.len() >= u32::MAX as usize {
            bail!("a text too long");
        }
        match read_schedule(alloc, text.as_slice(), &self.spec) {
            Ok(schedule) => match self.form {
                Form::Run => run_text(alloc, &self.program, &self.spec, &schedule),
                Form::Tries => tries_text(alloc, &self.program, &self.spec, &schedule),
            },
            Err(refusal) => {
                refused(refusal)?;
                bail!("refused")
            }
        }
    }
}

impl Meaning for Table {
    fn new(alloc: Global) -> Result<Table> {
        Ok(Table {
            reading: None,
            program: no_program(alloc),
            spec: specification(alloc, "spec none; disks 0; crash { }")?,
            form: Form::Run,
        })
    }

    fn take(&mut self, alloc: Global, line: &str) -> Result<bool> {
        self.take_line(alloc, line).context(format_args!("{line}"))
    }

    fn other(&self, alloc: Global, text: &str, want: &str) -> Result<Option<String>> {
        let answer = self.answer(alloc, text)?;
        if answer.as_slice() == want.as_bytes() {
            return Ok(None);
        }
        let shown = answer.as_slice().escape_ascii();
        Ok(Some(format!(in alloc; "{shown}")?))
    }
}
