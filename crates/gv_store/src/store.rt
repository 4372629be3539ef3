//! The store.

ghost use Rattle.std.specs.Prelude.{◌≡◌, ◌+◌, ◌-◌, ◌^◌, ◌<◌, ◌≤◌, max, true, take, map, sum, length, nat_le};
ghost use Rattle.std.specs.Prelude.{IfOk, IfErr, MatchResult};
ghost use Rattle.gv_base.specs.declared.answer.Answer.TheVariants.{Next, Undefined};
ghost use Rattle.gv_world.specs.Cells as cells_in;
ghost use Rattle.gv_world.specs.Store as world;
ghost use Rattle.gv_store.specs.Growing.{Makes};
ghost use Rattle.gv_store.specs.Reaching.{object_at};

mod appending;
mod disks;
mod making;
mod maps;
mod reading;
mod writing;

use crate::disk::Disk;
use crate::grow::Grow;
use gv_base::{NoMemory, Reason};
use gv_cells::Object;
use gv_world::Cell;
use std::alloc::Global;
use std::marker::Model;

/// How many live cells a store may have. This project's own.
pub const MOST_CELLS: usize = 1 << 24;

/// What threads share, which contracts see as the definition's store: the objects under numbers from 1,
/// and the disks. Each call answers what the definition of its access does: a next store, that it can't be
/// made now, or that it is undefined and why; after anything but a next one the store is as it was.
/// An object and a block are reached in constant time. This project's own.
#[derive(Debug, Drop)]
pub struct Store {
    objects: Vec<Object>,
    disks: Vec<Disk>,
    // what the objects count
    live: usize,
}

impl Model for Store {
    ghost use Rattle.gv_world.specs.Store as world;

    ghost Value = { world.Store };

    ghost use Rattle.gv_store.specs.Counting.{IsCounted};

    ghost view = { λ s. record { objects = s.objects.items; disks = s.disks.items } };

    ghost invariant = { λ s. IsCounted s.objects.items s.live };
}

impl Store {
    /// So many disks of so many blocks of 4,096 zero bytes, and no object. All the memory that writes to
    /// the disks need is taken here.
    pub fn new(alloc: Global, disks: u32, blocks: u32) -> Result<Store, NoMemory>
        ensures { IfOk result (λ s. s ≡ world.zero_store disks blocks) }
    {
        let mut zeros = Vec::new(alloc);
        for _i in 0..disks {
            zeros.push(Disk::zero(alloc, blocks)?)?;
        }
        Ok(Store {
            objects: Vec::new(alloc),
            disks: zeros,
            live: 0,
        })
    }

    /// A crash drops the objects, and keeps the disks, which have failed or not.
    pub fn crash(&mut self)
        ensures { self.new ≡ world.crashed self.old }
    {
        self.objects.clear();
        self.live = 0;
    }

    /// How many cells the objects count: a struct its fields and at least one, a slice its capacity when
    /// it was made and at least one, a map one and one for each entry, a mutex one.
    pub fn live_cells(&self) -> u64
        ensures value { result ≡ world.live_cells self.now }
        ensures within { world.live_cells self.now ≤ 2 ^ 24 }
    {
        self.live as u64
    }

    /// The number that the next object gets.
    pub fn fresh(&self) -> u32
        ensures { result ≡ world.fresh self.now }
    {
        self.objects.len() as u32 + 1
    }

    /// Takes back the objects from a number on.
    pub fn forget_from(&mut self, number: u32)
        requires { 0 < number }
        ensures { self.new ≡ record self.old { objects = take (number - 1) self.old.objects } }
    {
        let kept = (number as usize - 1).min(self.objects.len());
        self.live -= total(&self.objects[kept..]);
        self.objects.truncate(kept);
    }

    // The place of the object under a number, or the reason why there is none.
    fn place_of(&self, number: u32) -> Result<usize, Reason>
        ensures ok { IfOk result (λ at. (at < length self.now.objects) × (number ≡ at + 1)) }
        ensures err { IfErr result (λ reason. object_at self.now number ≡ Undefined reason) }
    {
        let number = number as usize;
        if number == 0 {
            return Err(Reason::NilUse);
        }
        if self.objects.len() < number {
            return Err(Reason::Kind);
        }
        Ok(number - 1)
    }

    // The cells of the object under a number, or the reason why there are none.
    fn cells_of(&self, number: u32) -> Result<&[Cell], Reason>
        ensures { MatchResult result
            (λ cells. cells_in.cells_of self.now number ≡ Next cells.now)
            (λ reason. cells_in.cells_of self.now number ≡ Undefined reason) }
    {
        let at = self.place_of(number)?;
        self.objects[at].cells()
    }

    // Whether an object that counts so many cells and at least one may live beside the others.
    fn has_room(&self, cells: usize) -> bool
        ensures { result ≡ nat_le (world.live_cells self.now + max cells 1) world.most_cells }
    {
        cells.max(1) <= MOST_CELLS - self.live
    }

    // Adds an object that there is room for.
    fn add(&mut self, object: Object) -> Result<u32, Grow>
        requires { world.is_within_limit (world.with_new self.old object) ≡ true }
        ensures { Makes object self.old result self.new }
    {
        let counted = object.counted();
        self.objects.push(object)?;
        self.live += counted;
        Ok(self.objects.len() as u32)
    }
}

// How many cells these objects count together.
fn total(objects: &[Object]) -> usize
    requires { sum (map world.counted objects.now) ≤ 2 ^ 24 }
    ensures { result ≡ sum (map world.counted objects.now) }
{
    let mut total = 0;
    for object in objects {
        total += object.counted();
    }
    total
}
