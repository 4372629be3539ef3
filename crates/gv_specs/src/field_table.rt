//! The fields by their names.

ghost use Rattle.std.specs.Prelude.{◌≡◌, IfOk};
ghost use Rattle.gv_specs.specs.FieldTable.{IsTableOf, entry_in};

use crate::names::name_of;
use gv_base::{Name, NoMemory};
use gv_specread::FieldTree;
use gv_terms::Sort;
use std::alloc::Global;
use std::collections::HashMap;

/// The number and the sort of a field.
#[derive(Clone, Copy, Debug)]
pub struct NumberedSort {
    pub number: u32,
    pub sort: Sort,
}

/// The numbers and sorts of fields by their names; of two that bear one name the first counts.
#[derive(Drop)]
pub struct FieldTable {
    pub entries: HashMap<Name, NumberedSort>,
}

impl FieldTable {
    /// The table of the fields of a text.
    pub fn new(alloc: Global, text: &[u8], fields: &[FieldTree]) -> Result<FieldTable, NoMemory>
        ensures { IfOk result (λ table. IsTableOf text.now fields.now table) }
    {
        let mut entries = HashMap::new(alloc);
        let mut left = fields.len();
        while left > 0 {
            left -= 1;
            let field = &fields[left];
            // A number that u32 can't hold is of more fields than memory has room for.
            let number = u32::try_from(left).map_err(|_| NoMemory)?;
            let entry = NumberedSort {
                number,
                sort: field.sort.sort,
            };
            entries.insert(name_of(alloc, text, field.name)?, entry)?;
        }
        Ok(FieldTable { entries })
    }

    /// The number and the sort of the field with a name.
    pub fn entry(&self, name: &Name) -> Option<NumberedSort>
        ensures { result ≡ entry_in self.now name.now }
    {
        self.entries.get(name).copied()
    }
}
