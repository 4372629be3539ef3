//! The operations of a specification by their names.

ghost use Rattle.std.specs.Prelude.{◌≡◌, IfOk};
ghost use Rattle.gv_replay.specs.OperationTable.{IsTableOf, number_in};

use gv_atomic::Spec;
use gv_base::{Name, NoMemory};
use std::alloc::Global;
use std::collections::HashMap;

/// The numbers of the operations by their names. This project's own.
#[derive(Drop)]
pub struct Operations {
    pub numbers: HashMap<Name, u32>,
}

impl Operations {
    /// The table of a specification's operations.
    pub fn new(alloc: Global, spec: &Spec) -> Result<Operations, NoMemory>
        ensures { IfOk result (λ table. IsTableOf spec.now.ops table) }
    {
        let ops = spec.ops.as_slice();
        let mut numbers = HashMap::new(alloc);
        let mut left = ops.len();
        while left > 0 {
            left -= 1;
            // A number that u32 can't hold is of more operations than memory has room for.
            let number = u32::try_from(left).map_err(|_| NoMemory)?;
            numbers.insert(ops[left].name.copy(alloc)?, number)?;
        }
        Ok(Operations { numbers })
    }

    /// The number of the operation with a name.
    pub fn number_of(&self, name: &Name) -> Option<u32>
        ensures { result ≡ number_in self.now name.now }
    {
        self.numbers.get(name).copied()
    }
}
