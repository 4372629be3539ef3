//! What commands come to.

ghost use Rattle.gv_terms.specs.Store.{AreIn};

use crate::commands::Command;
use anyhow::{Result, bail};
use gv_certs::RuleFault;
use gv_have::{absurd, have};
use gv_known::Facts;
use gv_terms::{Scope, TermStore};
use std::alloc::Global;

fn checked(
    alloc: Global,
    store: &mut TermStore,
    scope: &Scope,
    facts: &mut Facts,
    command: &Command,
) -> Result<(), RuleFault>
    requires facts { AreIn store.old facts.old }
    ensures within { AreIn store.new facts.new }
{
    match command {
        Command::Have(goal, cert) => have(alloc, store, scope, facts, goal, cert),
        Command::Absurd(cert) => absurd(alloc, store, scope, facts, cert),
    }
}

// What an answer is called.
fn answer_name(answer: Result<(), RuleFault>) -> Result<&'static str> {
    match answer {
        Ok(()) => Ok("shown"),
        Err(RuleFault::Cause(cause)) => Ok(cause.name()),
        Err(RuleFault::NoMemory) => bail!("out of memory"),
    }
}

/// What commands come to one after another, where these facts are known at first.
pub(crate) fn outcomes(
    alloc: Global,
    store: &mut TermStore,
    scope: &Scope,
    facts: &mut Facts,
    commands: &[Command],
) -> Result<String>
    requires facts { AreIn store.old facts.old }
{
    let mut said = String::new(alloc);
    for i in 0..commands.len() {
        let answer = checked(alloc, store, scope, facts, &commands[i]);
        if i > 0 {
            said.push_str(", ")?;
        }
        said.push_str(answer_name(answer)?)?;
    }
    Ok(said)
}
