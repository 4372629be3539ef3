//! Blocks of commands, of which a procedure's body is the outermost.

use crate::commands::command;
use crate::expressions::expression;
use crate::names::Names;
use crate::places::placed;
use anyhow::{Result, bail};
use gv_base::{List, Place};
use gv_lang::{Cmd, Pure};
use std::alloc::Global;

// What a block is.
#[derive(Drop)]
enum Opening {
    Body,
    Then(Pure, Place),
    // the condition, and the block where it holds
    Otherwise(Pure, Place, List<Cmd>),
    Loop(Place),
}

// A block that isn't at its end, with its commands so far.
#[derive(Drop)]
struct Open {
    opening: Opening,
    commands: List<Cmd>,
}

/// The blocks that aren't at their end, the innermost last.
#[derive(Drop)]
pub(crate) struct Blocks {
    open: Vec<Open>,
}

// The command that a block makes at its end.
fn closed(alloc: Global, open: Open) -> Result<Cmd> {
    let Open { opening, commands } = open;
    match opening {
        Opening::Then(e, place) => Ok(Cmd::If {
            e,
            then: commands,
            other: List::new(alloc),
            place,
        }),
        Opening::Otherwise(e, place, then) => Ok(Cmd::If {
            e,
            then,
            other: commands,
            place,
        }),
        Opening::Loop(place) => Ok(Cmd::Loop {
            body: commands,
            place,
        }),
        Opening::Body => bail!("no block to end"),
    }
}

impl Blocks {
    pub(crate) fn new(alloc: Global) -> Blocks {
        Blocks {
            open: Vec::new(alloc),
        }
    }

    fn begin(&mut self, alloc: Global, opening: Opening) -> Result<()> {
        let commands = List::new(alloc);
        self.open.push(Open { opening, commands })?;
        Ok(())
    }

    /// Begins a procedure's body.
    pub(crate) fn begin_body(&mut self, alloc: Global) -> Result<()> {
        self.begin(alloc, Opening::Body)
    }

    fn add(&mut self, command: Cmd) -> Result<()> {
        let Some(innermost) = self.open.last_mut() else {
            bail!("no procedure for the command");
        };
        innermost.commands.push(command)?;
        Ok(())
    }

    fn end(&mut self, alloc: Global) -> Result<()> {
        match self.open.pop() {
            Some(open) => self.add(closed(alloc, open)?),
            None => bail!("no block to end"),
        }
    }

    fn otherwise(&mut self, alloc: Global) -> Result<()> {
        let Some(open) = self.open.pop() else {
            bail!("no condition before");
        };
        let Open { opening, commands } = open;
        match opening {
            Opening::Then(e, place) => self.begin(alloc, Opening::Otherwise(e, place, commands)),
            _ => bail!("no condition before"),
        }
    }

    /// One line of a body: a command, `if E` or `loop`, each with its place or without, `else` or `end`.
    pub(crate) fn take(&mut self, alloc: Global, names: Names<'_>, line: &str) -> Result<()> {
        let (line, place) = placed(line)?;
        if let Some(condition) = line.strip_prefix("if ") {
            let e = expression(alloc, names, condition)?;
            return self.begin(alloc, Opening::Then(e, place));
        }
        match line {
            "else" => self.otherwise(alloc),
            "loop" => self.begin(alloc, Opening::Loop(place)),
            "end" => self.end(alloc),
            _ => self.add(command(alloc, names, line, place)?),
        }
    }

    /// The body that is at its end; none where no procedure has begun.
    pub(crate) fn end_body(&mut self) -> Result<Option<List<Cmd>>> {
        let Some(open) = self.open.pop() else {
            return Ok(None);
        };
        let Open { opening, commands } = open;
        match opening {
            Opening::Body => Ok(Some(commands)),
            _ => bail!("a block without its end"),
        }
    }
}
