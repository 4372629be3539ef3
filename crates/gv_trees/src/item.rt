//! What lists and maps hold.

ghost use Rattle.std.specs.Prelude.{◌≡◌, ◌↔◌, IfOk, IsTrue};

use gv_base::{Name, NoMemory};
use std::alloc::Global;

/// What a list or a map can hold: its copies are equal, and `same` decides equality.
/// This project's own.
pub trait Item: Drop {
    /// An equal item.
    fn copy(&self, alloc: Global) -> Result<Self, NoMemory>
        ensures { IfOk result (λ v. v ≡ self.now) };

    /// Whether the two are equal.
    fn same(&self, other: &Self) -> bool
        ensures { IsTrue result ↔ (self.now ≡ other.now) };
}

impl Item for u64 {
    fn copy(&self, _alloc: Global) -> Result<u64, NoMemory> {
        Ok(*self)
    }

    fn same(&self, other: &u64) -> bool {
        *self == *other
    }
}

impl Item for u32 {
    fn copy(&self, _alloc: Global) -> Result<u32, NoMemory> {
        Ok(*self)
    }

    fn same(&self, other: &u32) -> bool {
        *self == *other
    }
}

impl Item for u8 {
    fn copy(&self, _alloc: Global) -> Result<u8, NoMemory> {
        Ok(*self)
    }

    fn same(&self, other: &u8) -> bool {
        *self == *other
    }
}

impl Item for Name {
    fn copy(&self, alloc: Global) -> Result<Name, NoMemory> {
        Name::copy(self, alloc)
    }

    fn same(&self, other: &Name) -> bool {
        self.as_slice() == other.as_slice()
    }
}

impl<V: Item> Item for (u64, V) {
    fn copy(&self, alloc: Global) -> Result<(u64, V), NoMemory> {
        Ok((self.0, self.1.copy(alloc)?))
    }

    fn same(&self, other: &(u64, V)) -> bool {
        self.0 == other.0 && self.1.same(&other.1)
    }
}
