//! Programs, line by line.
//!
//! `struct T f KIND, g KIND` declares a struct, `struct T` one without fields. `proc NAME(x KIND, y KIND) KIND, KIND` begins a
//! procedure with its parameters and the kinds of its results; `recover` in the place of `proc` says that it is recovery, and
//! `op` that it is an operation. `local x KIND, y KIND` declares more locals of it, and its commands follow. A KIND is `Word`,
//! `Bool`, `Ref` or `Slice`. A name stands for what is declared above it. A command may have the place of its statement behind it,
//! ` @LINE:COLUMN`.

use crate::blocks::Blocks;
use crate::names::Names;
use anyhow::{Result, bail};
use gv_base::{List, Name};
use gv_lang::{Local, LocalKind, Proc, Program, Struct};
use std::alloc::Global;

/// A program that is being read.
#[derive(Drop)]
pub struct Reading {
    structs: Vec<Struct>,
    procs: Vec<Proc>,
    recover: Option<u32>,
    ops: Vec<u32>,
    blocks: Blocks,
}

fn kind_of(said: &str) -> Result<LocalKind> {
    match said {
        "Word" => Ok(LocalKind::Word),
        "Bool" => Ok(LocalKind::Bool),
        "Ref" => Ok(LocalKind::Ref),
        "Slice" => Ok(LocalKind::Slice),
        _ => bail!("no kind: {said}"),
    }
}

fn local_of(alloc: Global, said: &str) -> Result<Local> {
    let Some((name, kind)) = said.split_once(' ') else {
        bail!("no kind of {said}");
    };
    let kind = kind_of(kind)?;
    let name = Name::from_slice(alloc, name.as_bytes())?;
    Ok(Local { name, kind })
}

fn push_locals(alloc: Global, locals: &mut List<Local>, text: &str) -> Result<()> {
    if text.is_empty() {
        return Ok(());
    }
    for part in text.split(", ") {
        locals.push(local_of(alloc, part)?)?;
    }
    Ok(())
}

fn kinds(alloc: Global, text: &str) -> Result<List<LocalKind>> {
    let mut kinds = List::new(alloc);
    if text.is_empty() {
        return Ok(kinds);
    }
    for part in text.split(", ") {
        kinds.push(kind_of(part)?)?;
    }
    Ok(kinds)
}

// A procedure without its body.
fn proc_of(alloc: Global, said: &str) -> Result<Proc> {
    let Some((name, rest)) = said.split_once('(') else {
        bail!("no parameters of {said}");
    };
    let Some((params, results)) = rest.split_once(')') else {
        bail!("no end of the parameters of {said}");
    };
    let mut locals = List::new(alloc);
    push_locals(alloc, &mut locals, params)?;
    Ok(Proc {
        name: Name::from_slice(alloc, name.as_bytes())?,
        params: u32::try_from(locals.len())?,
        locals,
        results: kinds(alloc, results.trim_start())?,
        body: List::new(alloc),
    })
}

fn struct_of(alloc: Global, said: &str) -> Result<Struct> {
    let (name, rest) = match said.split_once(' ') {
        Some((name, rest)) => (name, rest),
        None => (said, ""),
    };
    let mut fields = List::new(alloc);
    push_locals(alloc, &mut fields, rest)?;
    let name = Name::from_slice(alloc, name.as_bytes())?;
    Ok(Struct { name, fields })
}

impl Reading {
    /// No line is read.
    pub fn new(alloc: Global) -> Reading {
        Reading {
            structs: Vec::new(alloc),
            procs: Vec::new(alloc),
            recover: None,
            ops: Vec::new(alloc),
            blocks: Blocks::new(alloc),
        }
    }

    // Gives the last procedure its body.
    fn end_proc(&mut self) -> Result<()> {
        let Some(body) = self.blocks.end_body()? else {
            return Ok(());
        };
        if let Some(last) = self.procs.last_mut() {
            last.body = body;
        }
        Ok(())
    }

    // Begins a procedure, and tells its place.
    fn begin_proc(&mut self, alloc: Global, said: &str) -> Result<u32> {
        self.end_proc()?;
        let place = u32::try_from(self.procs.len())?;
        self.procs.push(proc_of(alloc, said)?)?;
        self.blocks.begin_body(alloc)?;
        Ok(place)
    }

    fn declare_locals(&mut self, alloc: Global, said: &str) -> Result<()> {
        let Some(last) = self.procs.last_mut() else {
            bail!("no procedure for the locals");
        };
        push_locals(alloc, &mut last.locals, said)
    }

    fn take_command(&mut self, alloc: Global, line: &str) -> Result<()> {
        let names = Names {
            structs: self.structs.as_slice(),
            procs: self.procs.as_slice(),
        };
        self.blocks.take(alloc, names, line)
    }

    /// One line that isn't the last.
    pub fn take(&mut self, alloc: Global, line: &str) -> Result<()> {
        let (word, rest) = match line.split_once(' ') {
            Some((word, rest)) => (word, rest),
            None => (line, ""),
        };
        match word {
            "struct" => self.structs.push(struct_of(alloc, rest)?)?,
            "local" => self.declare_locals(alloc, rest)?,
            "recover" => self.recover = Some(self.begin_proc(alloc, rest)?),
            "op" => {
                let place = self.begin_proc(alloc, rest)?;
                self.ops.push(place)?;
            }
            "proc" => {
                self.begin_proc(alloc, rest)?;
            }
            _ => self.take_command(alloc, line)?,
        }
        Ok(())
    }

    /// The program, where the line behind it is its last.
    pub fn finish(self) -> Result<Program> {
        let mut whole = self;
        whole.end_proc()?;
        let Some(recover) = whole.recover else {
            bail!("no recovery");
        };
        let Reading {
            structs,
            procs,
            recover: _,
            ops,
            blocks: _,
        } = whole;
        Ok(Program {
            structs: List::from_vec(structs),
            procs: List::from_vec(procs),
            recover,
            ops: List::from_vec(ops),
        })
    }
}
