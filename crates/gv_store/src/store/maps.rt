//! The maps of a store.

ghost use Rattle.std.specs.Prelude.{◌≡◌};
ghost use Rattle.gv_world.specs.FiniteMaps as maps;
ghost use Rattle.gv_cells.specs.Outcomes.{Does};
ghost use Rattle.gv_store.specs.Growing.{DoesWithin};

use crate::grow::Grow;
use crate::store::{MOST_CELLS, Store};
use gv_base::Answer;

impl Store {
    /// The item under a key, where there is one.
    pub fn map_read(&self, object: u32, key: u64) -> Answer<Option<u64>>
        ensures { result ≡ maps.map_read self.now object key }
    {
        match self.place_of(object) {
            Ok(at) => self.objects[at].map_read(key),
            Err(reason) => Answer::Undefined(reason),
        }
    }

    /// Begins a write of a map: marks it, and it keeps its entries.
    pub fn map_begin(&mut self, object: u32) -> Answer<()>
        ensures { Does (maps.map_begin self.old object) self.old result self.new }
    {
        match self.place_of(object) {
            Ok(at) => self.objects[at].map_begin(),
            Err(reason) => Answer::Undefined(reason),
        }
    }

    /// Ends a write of a map: the item stands under the key, or where there is none nothing does, and the
    /// map is unmarked.
    pub fn map_end(&mut self, object: u32, key: u64, item: Option<u64>) -> Result<Answer<()>, Grow>
        ensures { DoesWithin (maps.map_end self.old object key item) self.old result self.new }
    {
        let at = match self.place_of(object) {
            Ok(at) => at,
            Err(reason) => return Ok(Answer::Undefined(reason)),
        };
        let rest = self.live - self.objects[at].counted();
        let live = rest + self.objects[at].counted_after(key, item);
        if MOST_CELLS < live {
            return Err(Grow::TooMany);
        }
        match self.objects[at].map_end(key, item) {
            Ok(answer) => {
                self.live = live;
                Ok(answer)
            }
            Err(_) => Err(Grow::NoMemory),
        }
    }
}
