//! Writing cells of a store, and its mutexes.

ghost use Rattle.std.specs.Prelude.{◌≡◌, ◌+◌, [], ◌∷◌, map};
ghost use Rattle.gv_base.specs.declared.val.Val.TheVariants as val;
ghost use Rattle.gv_words.specs.Words.{le64};
ghost use Rattle.gv_world.specs.Cells as defined;
ghost use Rattle.gv_world.specs.Mutexes as mutexes;
ghost use Rattle.gv_cells.specs.Outcomes.{Does};

use crate::access::word_items;
use crate::store::Store;
use gv_base::{Answer, SliceVal, Val};

impl Store {
    /// Begins a write of so many cells: marks them, and they keep their values.
    pub fn begin_write(&mut self, object: u32, index: u64, count: u64) -> Answer<()>
        ensures { Does (defined.begin_write self.old object index count) self.old result self.new }
    {
        self.begin_at(object, index, 0, count)
    }

    /// Begins a write of the item of a slice with a number from 0 on, whatever its length.
    pub fn begin_item(&mut self, slice: SliceVal, index: u64) -> Answer<()>
        ensures { Does (defined.begin_write self.old slice.object (slice.offset + index) 1) self.old result self.new }
    {
        self.begin_at(slice.object, slice.offset, index, 1)
    }

    // Begins a write of so many cells from the place `offset + index` on.
    fn begin_at(&mut self, object: u32, offset: u64, index: u64, count: u64) -> Answer<()>
        ensures { Does (defined.begin_write self.old object (offset + index) count) self.old result self.new }
    {
        match self.place_of(object) {
            Ok(at) => self.objects[at].begin_write(offset, index, count),
            Err(reason) => Answer::Undefined(reason),
        }
    }

    /// Ends a write: the cells hold the items, and are unmarked.
    pub fn end_write(&mut self, object: u32, index: u64, items: &[Val]) -> Answer<()>
        ensures { Does (defined.end_write self.old object index items.now) self.old result self.new }
    {
        self.end_at(object, index, 0, items)
    }

    /// Ends a write of the item of a slice with a number from 0 on, whatever its length.
    pub fn end_item(&mut self, slice: SliceVal, index: u64, item: Val) -> Answer<()>
        ensures { Does (defined.end_write self.old slice.object (slice.offset + index) (item ∷ [])) self.old result self.new }
    {
        self.end_at(slice.object, slice.offset, index, &[item])
    }

    // Ends a write of the cells from the place `offset + index` on.
    fn end_at(&mut self, object: u32, offset: u64, index: u64, items: &[Val]) -> Answer<()>
        ensures { Does (defined.end_write self.old object (offset + index) items.now) self.old result self.new }
    {
        match self.place_of(object) {
            Ok(at) => self.objects[at].end_write(offset, index, items),
            Err(reason) => Answer::Undefined(reason),
        }
    }

    /// Begins a write of a slice's first 8 bytes, whatever its length.
    pub fn begin_word(&mut self, slice: SliceVal) -> Answer<()>
        ensures { Does (defined.begin_bytes self.old slice.object slice.offset 8) self.old result self.new }
    {
        match self.place_of(slice.object) {
            Ok(at) => self.objects[at].begin_bytes(slice.offset, 0, 8),
            Err(reason) => Answer::Undefined(reason),
        }
    }

    /// Ends a write of a slice's first 8 bytes: they are the word's, the lowest first.
    pub fn end_word(&mut self, slice: SliceVal, word: u64) -> Answer<()>
        ensures { Does (defined.end_write self.old slice.object slice.offset (map val.Word (le64 word))) self.old result self.new }
    {
        self.end_at(slice.object, slice.offset, 0, &word_items(word))
    }

    /// Locks a mutex, or waits where it is locked, whoever locked it.
    pub fn lock(&mut self, object: u32) -> Answer<()>
        ensures { Does (mutexes.lock self.old object) self.old result self.new }
    {
        match self.place_of(object) {
            Ok(at) => self.objects[at].lock(),
            Err(reason) => Answer::Undefined(reason),
        }
    }

    /// Unlocks a mutex, whoever locked it.
    pub fn unlock(&mut self, object: u32) -> Answer<()>
        ensures { Does (mutexes.unlock self.old object) self.old result self.new }
    {
        match self.place_of(object) {
            Ok(at) => self.objects[at].unlock(),
            Err(reason) => Answer::Undefined(reason),
        }
    }
}
