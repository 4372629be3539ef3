//! Numbers by names.

ghost use Rattle.std.specs.Prelude.{◌≡◌, IfOk};
ghost use Rattle.gv_interfaces.specs.Tables.{IsTableOf, number_in};

use gv_base::{Name, NoMemory};
use std::alloc::Global;
use std::collections::HashMap;

/// The numbers of names in a list, from 0; of a name that stands twice, the first. This project's own.
#[derive(Drop)]
pub struct NameTable {
    pub numbers: HashMap<Name, u32>,
}

impl NameTable {
    /// The table of a list of names.
    pub fn new(alloc: Global, names: &[Name]) -> Result<NameTable, NoMemory>
        ensures { IfOk result (λ table. IsTableOf names.now table) }
    {
        let mut numbers = HashMap::new(alloc);
        let mut left = names.len();
        while left > 0 {
            left -= 1;
            // A number that u32 can't hold is of more names than memory has room for.
            let number = u32::try_from(left).map_err(|_| NoMemory)?;
            numbers.insert(names[left].copy(alloc)?, number)?;
        }
        Ok(NameTable { numbers })
    }

    /// The number of a name.
    pub fn number_of(&self, name: &Name) -> Option<u32>
        ensures { result ≡ number_in self.now name.now }
    {
        self.numbers.get(name).copied()
    }
}
