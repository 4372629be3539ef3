//! Making objects of a store.

ghost use Rattle.std.specs.Prelude.{◌≡◌, [], false, map, replicate, IfOk};
ghost use Rattle.gv_world.specs.Disks as disks;
ghost use Rattle.gv_world.specs.Slices as slices;
ghost use Rattle.gv_world.specs.Store as world;
ghost use Rattle.gv_store.specs.Growing.{GivesWithin, Makes};

use crate::grow::Grow;
use crate::made::{byte_cells, equal_cells, grown_cells, value_cells};
use crate::store::Store;
use gv_base::{Answer, Reason, SliceVal, Val};
use gv_cells::Object;
use std::alloc::Global;

impl Store {
    /// A fresh object whose cells hold these values: a struct. Its number is given.
    pub fn new_struct(&mut self, alloc: Global, items: &[Val]) -> Result<u32, Grow>
        ensures { Makes (world.Cells (map slices.new_cell items.now)) self.old result self.new }
    {
        if !self.has_room(items.len()) {
            return Err(Grow::TooMany);
        }
        match value_cells(alloc, items) {
            Ok(cells) => self.add(Object::of_cells(cells)),
            Err(_) => Err(Grow::NoMemory),
        }
    }

    /// A fresh object of so many cells that all hold this value. Its number is given.
    pub fn new_slice(&mut self, alloc: Global, zero: Val, count: u64) -> Result<u32, Grow>
        ensures { Makes (world.Cells (replicate count (slices.new_cell zero))) self.old result self.new }
    {
        if !self.has_room(count as usize) {
            return Err(Grow::TooMany);
        }
        match equal_cells(alloc, count, zero) {
            Ok(cells) => self.add(Object::of_cells(cells)),
            Err(_) => Err(Grow::NoMemory),
        }
    }

    /// A fresh object whose cells hold these bytes. Its number is given.
    pub fn new_buffer(&mut self, alloc: Global, bytes: &[u8]) -> Result<u32, Grow>
        ensures { Makes (world.Cells (disks.byte_cells bytes.now)) self.old result self.new }
    {
        if !self.has_room(bytes.len()) {
            return Err(Grow::TooMany);
        }
        match byte_cells(alloc, bytes) {
            Ok(cells) => self.add(Object::of_cells(cells)),
            Err(_) => Err(Grow::NoMemory),
        }
    }

    /// A fresh map without entries. Its number is given.
    pub fn new_map(&mut self, alloc: Global) -> Result<u32, Grow>
        ensures { Makes (world.Map [] false) self.old result self.new }
    {
        if !self.has_room(1) {
            return Err(Grow::TooMany);
        }
        self.add(Object::new_map(alloc))
    }

    /// A fresh mutex, which is free. Its number is given.
    pub fn new_mutex(&mut self, _alloc: Global) -> Result<u32, Grow>
        ensures { Makes (world.Mutex false) self.old result self.new }
    {
        if !self.has_room(1) {
            return Err(Grow::TooMany);
        }
        self.add(Object::new_mutex())
    }
}
