//! The commands that add a fact or end a path, as the grammar of scripts reads them.

use crate::acts::{made, pass};
use crate::parts::{Part, Span, cert, one_term};
use crate::repeated::MOST;
use anyhow::{Result, bail};
use gv_base::Refusal;
use gv_certs::Cert;
use gv_lex::lex;
use gv_scriptparse::parse_script;
use gv_scriptsyntax::generated::script_table::{ACT_ABSURD, ACT_HAVE};
use gv_scriptsyntax::{Node, Tree};
use gv_terms::RawTerm;
use std::alloc::Global;

/// A command with a certificate.
#[derive(Drop)]
pub(crate) enum Command {
    Have(RawTerm, Cert),
    Absurd(Cert),
}

fn have(alloc: Global, text: &[u8], parts: &mut Vec<Part>) -> Result<Command> {
    let cert = cert(parts)?;
    pass(parts, 1)?;
    let goal = one_term(alloc, text, parts)?;
    pass(parts, 1)?;
    Ok(Command::Have(goal, cert))
}

fn absurd(parts: &mut Vec<Part>) -> Result<Command> {
    let cert = cert(parts)?;
    pass(parts, 2)?;
    Ok(Command::Absurd(cert))
}

// The command that an act makes of the last parts, where it makes such a one.
fn command_of(
    alloc: Global,
    text: &[u8],
    parts: &mut Vec<Part>,
    act: u8,
) -> Result<Option<Command>> {
    match act {
        ACT_HAVE => Ok(Some(have(alloc, text, parts)?)),
        ACT_ABSURD => Ok(Some(absurd(parts)?)),
        _ => Ok(None),
    }
}

// Puts what an act makes in place of the parts that it is made of, or behind the commands.
fn act_on(
    alloc: Global,
    text: &[u8],
    parts: &mut Vec<Part>,
    commands: &mut Vec<Command>,
    act: u8,
) -> Result<()> {
    if let Some(command) = command_of(alloc, text, parts, act)? {
        commands.push(command)?;
        parts.push(Part::Other)?;
        return Ok(());
    }
    let made = made(alloc, text, parts, act)?;
    parts.push(made)?;
    Ok(())
}

// The commands of a script, in order.
fn commands_in(alloc: Global, text: &[u8], tree: &Tree) -> Result<Vec<Command>> {
    let mut parts: Vec<Part> = Vec::new(alloc);
    let mut commands = Vec::new(alloc);
    for node in &tree.nodes {
        match node {
            Node::Token(token) => parts.push(Part::Span(Span {
                start: token.start,
                end: token.end,
            }))?,
            Node::Made { act, from: _ } => act_on(alloc, text, &mut parts, &mut commands, *act)?,
        }
    }
    Ok(commands)
}

// The tree of a text, by its characters and then by its grammar.
fn read(alloc: Global, text: &[u8]) -> Result<Result<Tree, Refusal>> {
    if text.len() > MOST {
        bail!("a text of more than {MOST} bytes");
    }
    match lex(alloc, text) {
        Ok(tokens) => Ok(parse_script(alloc, text, &tokens)),
        Err(refusal) => Ok(Err(refusal)),
    }
}

/// The commands that a text lists, as those of a block of a script, or the code by which that is refused.
pub(crate) fn commands_of(alloc: Global, text: &str) -> Result<Result<Vec<Command>, &'static str>> {
    let text = format!(in alloc; "crash C; root R; init {{ {text}; }} recover {{ }}")?;
    let text = text.as_bytes();
    match read(alloc, text)? {
        Ok(tree) => Ok(Ok(commands_in(alloc, text, &tree)?)),
        Err(Refusal::At { place: _, code }) => Ok(Err(code.name())),
        Err(Refusal::NoMemory) => bail!("out of memory"),
    }
}
