//! Variables of terms.

use crate::sort::Sort;
use gv_base::{Name, NoMemory};
use gv_trees::Item;
use std::alloc::Global;

/// A name and its sort. This project's own.
#[derive(Debug, PartialEq, Eq, Drop)]
pub struct Var {
    pub name: Name,
    pub sort: Sort,
}

impl Item for Var {
    fn copy(&self, alloc: Global) -> Result<Var, NoMemory> {
        Ok(Var {
            name: self.name.copy(alloc)?,
            sort: self.sort,
        })
    }

    fn same(&self, other: &Var) -> bool {
        self.name.same(&other.name) && self.sort == other.sort
    }
}
