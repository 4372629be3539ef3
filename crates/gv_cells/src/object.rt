//! One object of a store.

ghost use Rattle.std.specs.Prelude.{◌≡◌, ◌+◌, ◌^◌, ◌≤◌, [], false, Some, IfOk, OnOk, OnErr, MatchResult};
ghost use Rattle.gv_base.specs.declared.answer.Answer.TheVariants.{Next, Undefined};
ghost use Rattle.gv_base.specs.declared.reason.Reason.TheVariants as reason;
ghost use Rattle.gv_world.specs.Answers.{and_then, undefined_if};
ghost use Rattle.gv_world.specs.Cells.{as_cells};
ghost use Rattle.gv_world.specs.FiniteMaps as maps;
ghost use Rattle.gv_world.specs.Store as world;
ghost use Rattle.gv_words.specs.Maps.{entry_at};
ghost use Rattle.gv_cells.specs.Objects as after;
ghost use Rattle.gv_cells.specs.Outcomes.{Does};

use crate::writing::{begin, begin_bytes, end};
use gv_base::{Answer, NoMemory, Reason, Val};
use gv_maps::WordMap;
use gv_world::Cell;
use std::alloc::Global;
use std::marker::Model;

/// An object of a store, which contracts see as the definition's: cells with their marks, a map with
/// its mark, or a mutex. This project's own.
#[derive(Debug, Drop)]
pub struct Object {
    kind: Kind,
}

#[derive(Debug, Drop)]
enum Kind {
    Cells(Vec<Cell>),
    Map(WordMap, bool),
    Mutex(bool),
}

impl Model for Object {
    ghost use Rattle.gv_world.specs.Store as world;

    ghost Value = { world.Object };

    ghost use Rattle.gv_cells.specs.Views.{object_of};

    ghost view = { λ o. object_of o.kind };
}

impl Object {
    /// An object of these cells.
    pub fn of_cells(cells: Vec<Cell>) -> Object
        ensures { result ≡ world.Cells cells.items }
    {
        Object {
            kind: Kind::Cells(cells),
        }
    }

    /// A map without entries.
    pub fn new_map(alloc: Global) -> Object
        ensures { result ≡ world.Map [] false }
    {
        Object {
            kind: Kind::Map(WordMap::new(alloc), false),
        }
    }

    /// A free mutex.
    pub fn new_mutex() -> Object
        ensures { result ≡ world.Mutex false }
    {
        Object {
            kind: Kind::Mutex(false),
        }
    }

    /// How many cells the object counts: its cells and at least one, a map one and one for each
    /// entry, a mutex one.
    pub fn counted(&self) -> usize
        ensures value { result ≡ world.counted self.now }
        ensures within { result ≤ 2 ^ 63 }
    {
        match &self.kind {
            Kind::Cells(cells) => cells.len().max(1),
            Kind::Map(entries, _) => entries.len() + 1,
            Kind::Mutex(_) => 1,
        }
    }

    /// The cells, or the reason why there are none.
    pub fn cells(&self) -> Result<&[Cell], Reason>
        ensures { MatchResult result (λ cells. as_cells (Some self.now) ≡ Next cells.now) (λ reason. as_cells (Some self.now) ≡ Undefined reason) }
    {
        match &self.kind {
            Kind::Cells(cells) => Ok(cells.as_slice()),
            _ => Err(Reason::Kind),
        }
    }

    /// Begins a write of so many cells from the place `offset + index` on: marks them.
    pub fn begin_write(&mut self, offset: u64, index: u64, count: u64) -> Answer<()>
        ensures answer { Does (after.begun self.old (offset + index) count) self.old result self.new }
        ensures counted { world.counted self.new ≡ world.counted self.old }
    {
        match &mut self.kind {
            Kind::Cells(cells) => begin(cells.as_mut_slice(), offset, index, count),
            _ => Answer::Undefined(Reason::Kind),
        }
    }

    /// Begins a write of cells that are to hold bytes.
    pub fn begin_bytes(&mut self, offset: u64, index: u64, count: u64) -> Answer<()>
        ensures answer { Does (after.begun_bytes self.old (offset + index) count) self.old result self.new }
        ensures counted { world.counted self.new ≡ world.counted self.old }
    {
        match &mut self.kind {
            Kind::Cells(cells) => begin_bytes(cells.as_mut_slice(), offset, index, count),
            _ => Answer::Undefined(Reason::Kind),
        }
    }

    /// Ends a write: the cells from the place `offset + index` on hold the items, and are unmarked.
    pub fn end_write(&mut self, offset: u64, index: u64, items: &[Val]) -> Answer<()>
        ensures answer { Does (after.ended self.old (offset + index) items.now) self.old result self.new }
        ensures counted { world.counted self.new ≡ world.counted self.old }
    {
        match &mut self.kind {
            Kind::Cells(cells) => end(cells.as_mut_slice(), offset, index, items),
            _ => Answer::Undefined(Reason::Kind),
        }
    }

    /// The item under a key, where there is one.
    pub fn map_read(&self, key: u64) -> Answer<Option<u64>>
        ensures { result ≡ and_then (maps.as_map (Some self.now)) (λ m. undefined_if m.1 reason.Race (Next (entry_at m.0 key))) }
    {
        match &self.kind {
            Kind::Map(_, true) => Answer::Undefined(Reason::Race),
            Kind::Map(entries, false) => Answer::Next(entries.get(key)),
            _ => Answer::Undefined(Reason::Kind),
        }
    }

    /// Begins a write of the map: marks it.
    pub fn map_begin(&mut self) -> Answer<()>
        ensures answer { Does (after.map_begun self.old) self.old result self.new }
        ensures counted { world.counted self.new ≡ world.counted self.old }
    {
        match &mut self.kind {
            Kind::Map(_, marked) => {
                if *marked {
                    return Answer::Undefined(Reason::Race);
                }
                *marked = true;
                Answer::Next(())
            }
            _ => Answer::Undefined(Reason::Kind),
        }
    }

    /// How many cells the object counts once an item stands under the key, or none does.
    pub fn counted_after(&self, key: u64, item: Option<u64>) -> usize
        ensures value { result ≡ after.counted_after self.now key item }
        ensures within { result ≤ 2 ^ 63 + 1 }
    {
        match &self.kind {
            Kind::Map(entries, _) => entries.len_after(key, item) + 1,
            _ => self.counted(),
        }
    }

    /// Ends a write of the map: the item stands under the key, or none does, and the map is unmarked.
    pub fn map_end(&mut self, key: u64, item: Option<u64>) -> Result<Answer<()>, NoMemory>
        ensures ok { IfOk result (λ answer. Does (after.map_ended self.old key item) self.old answer self.new) }
        ensures err { OnErr result (self.new ≡ self.old) }
        ensures counted { OnOk result (world.counted self.new ≡ after.counted_after self.old key item) }
    {
        match &mut self.kind {
            Kind::Map(entries, marked) => {
                match item {
                    Some(item) => entries.put(key, item)?,
                    None => entries.delete(key),
                }
                *marked = false;
                Ok(Answer::Next(()))
            }
            _ => Ok(Answer::Undefined(Reason::Kind)),
        }
    }

    /// Locks the mutex, or waits where it is locked.
    pub fn lock(&mut self) -> Answer<()>
        ensures answer { Does (after.locked self.old) self.old result self.new }
        ensures counted { world.counted self.new ≡ world.counted self.old }
    {
        match &mut self.kind {
            Kind::Mutex(locked) => {
                if *locked {
                    return Answer::Blocked;
                }
                *locked = true;
                Answer::Next(())
            }
            _ => Answer::Undefined(Reason::Kind),
        }
    }

    /// Unlocks the mutex.
    pub fn unlock(&mut self) -> Answer<()>
        ensures answer { Does (after.unlocked self.old) self.old result self.new }
        ensures counted { world.counted self.new ≡ world.counted self.old }
    {
        match &mut self.kind {
            Kind::Mutex(locked) => {
                if !*locked {
                    return Answer::Undefined(Reason::UnlockFree);
                }
                *locked = false;
                Answer::Next(())
            }
            _ => Answer::Undefined(Reason::Kind),
        }
    }
}
