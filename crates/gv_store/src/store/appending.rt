//! Appending to slices that have no spare cell.

ghost use Rattle.std.specs.Prelude.{◌≡◌};
ghost use Rattle.gv_world.specs.Slices as slices;
ghost use Rattle.gv_store.specs.Growing.{GivesWithin};

use crate::grow::Grow;
use crate::made::grown_cells;
use crate::store::Store;
use gv_base::{Answer, Reason, SliceVal, Val};
use gv_cells::Object;
use std::alloc::Global;

// One more than the greatest length of a slice.
const TOO_LONG: u64 = 1 << 63;

impl Store {
    /// An append of an item to a slice without a spare cell: a fresh object with the slice's values, the
    /// item and so many zeros, and the slice that is all of it but for these. It isn't possible where so
    /// much room is too much, unless no item can be appended whatever the room.
    pub fn append_grow(
        &mut self,
        alloc: Global,
        slice: SliceVal,
        item: Val,
        extra: u64,
    ) -> Result<Answer<SliceVal>, Grow>
        ensures { GivesWithin (slices.append_grow self.old slice item extra) self.old result self.new }
    {
        if TOO_LONG - 1 <= slice.length {
            return Ok(Answer::Undefined(Reason::OutOfRange));
        }
        let length = slice.length + 1;
        if TOO_LONG - length <= extra {
            return Ok(Answer::Blocked);
        }
        let cells = match self.slice_cells(slice) {
            Ok(cells) => cells,
            Err(reason) => return Ok(Answer::Undefined(reason)),
        };
        if !self.has_room((length + extra) as usize) {
            return Err(Grow::TooMany);
        }
        let grown = match grown_cells(alloc, cells, item, extra) {
            Ok(grown) => grown,
            Err(_) => return Err(Grow::NoMemory),
        };
        match self.add(Object::of_cells(grown)) {
            Ok(object) => Ok(Answer::Next(SliceVal {
                object,
                offset: 0,
                length,
                capacity: length + extra,
            })),
            Err(grow) => Err(grow),
        }
    }
}
