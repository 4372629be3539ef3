//! The table of calls.

ghost use Rattle.std.specs.Prelude.{◌≡◌, ◌≢◌, ◌↔◌, ◌+◌, ◌<◌, ◌^◌, IsTrue, OnOk};
ghost use Rattle.std.specs.Option.{option_copied};
ghost use Rattle.gv_history.specs.Seen.{AreSeenBy, standing_of};
ghost use Rattle.gv_spec.specs.Walks.{NeverCalled, entered, dropped};

use crate::seen::{Seen, Standing};
use gv_base::NoMemory;
use std::alloc::Global;
use std::collections::HashMap;

/// Where each call stands. A boot empties the table, but only counts: a call is in the table where no
/// boot came since it was last moved, so that a boot costs the same however many calls there were.
/// This project's own.
#[derive(Drop)]
pub struct Table {
    pub calls: HashMap<u32, Seen>,
    pub boots: u64,
    ghost seen: { AreSeenBy calls boots },
}

impl Table {
    ghost use Rattle.gv_history.specs.Table.{standing_in, present_in};

    /// The table in which no call stands.
    pub fn new(alloc: Global) -> Table
        ensures standings { standing_in result ≡ (λ n. NeverCalled) }
        ensures boots { result.boots ≡ 0 }
    {
        Table {
            calls: HashMap::new(alloc),
            boots: 0,
        }
    }

    /// Whether there was a call under this number.
    pub fn was_called(&self, number: u32) -> bool
        ensures { IsTrue result ↔ (standing_in self.now number ≢ NeverCalled) }
    {
        self.calls.contains_key(&number)
    }

    /// Where a call stands that no boot has left behind.
    pub fn present(&self, number: u32) -> Option<&Standing>
        ensures { option_copied result ≡ present_in self.now number }
    {
        match self.calls.get(&number) {
            Some(seen) if seen.boots == self.boots => Some(&seen.standing),
            _ => None,
        }
    }

    /// The call under a number stands so from now on.
    pub fn enter(&mut self, number: u32, standing: Standing) -> Result<(), NoMemory>
        ensures ok { OnOk result (standing_in self.new ≡ entered (standing_in self.old) number (standing_of standing)) }
        ensures boots { self.new.boots ≡ self.old.boots }
    {
        let boots = self.boots;
        self.calls.insert(number, Seen { boots, standing })?;
        Ok(())
    }

    /// Recovery returned: what is in the table leaves it.
    pub fn boot(&mut self)
        requires { self.old.boots + 1 < 2 ^ 64 }
        ensures standings { standing_in self.new ≡ (λ n. dropped (standing_in self.old n)) }
        ensures boots { self.new.boots ≡ self.old.boots + 1 }
    {
        self.boots += 1;
    }
}
