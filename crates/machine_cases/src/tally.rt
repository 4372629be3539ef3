//! What came of events one after another, as a table writes it.

use anyhow::{Result, bail};
use gv_machine::Outcome;
use std::alloc::Global;

/// How many times in a row the same came of an event, behind a text of what came before.
#[derive(Drop)]
pub(crate) struct Tally {
    text: Vec<u8>,
    last: Outcome,
    times: u32,
}

fn name_of(outcome: Outcome) -> &'static str {
    match outcome {
        Outcome::Done => "done",
        Outcome::Blocked => "not possible",
        Outcome::Undefined(reason) => reason.name(),
        Outcome::TooMany => "too many cells",
        Outcome::NoMemory => "out of memory",
    }
}

impl Tally {
    pub(crate) fn new(alloc: Global) -> Tally {
        Tally {
            text: Vec::new(alloc),
            last: Outcome::Done,
            times: 0,
        }
    }

    // Writes what the last events in a row came to.
    fn settle(&mut self, alloc: Global) -> Result<()> {
        if self.times == 0 {
            return Ok(());
        }
        if !self.text.is_empty() {
            self.text.extend_from_slice(b", ")?;
        }
        let (times, name) = (self.times, name_of(self.last));
        let said = format!(in alloc; "{times} {name}")?;
        self.text.extend_from_slice(said.as_bytes())?;
        self.times = 0;
        Ok(())
    }

    /// One event more.
    pub(crate) fn add(&mut self, alloc: Global, outcome: Outcome) -> Result<()> {
        if outcome == Outcome::NoMemory {
            bail!("out of memory");
        }
        if outcome != self.last {
            self.settle(alloc)?;
            self.last = outcome;
        }
        self.times = self.times.saturating_add(1);
        Ok(())
    }

    /// The whole text.
    pub(crate) fn finish(self, alloc: Global) -> Result<Vec<u8>> {
        let mut whole = self;
        whole.settle(alloc)?;
        Ok(whole.text)
    }
}
