//! Finite maps from words to words.

ghost use Rattle.std.specs.Prelude.{◌≡◌, ◌^◌, ◌<◌, ◌≤◌, [], true, length, IfOk, IfErr, OnOk, OnErr};
ghost use Rattle.gv_words.specs.Maps.{ascends, entry_at, with_entry, without};
ghost use Rattle.gv_world.specs.FiniteMaps.{changed};

use gv_base::NoMemory;
use gv_words::find;
use std::alloc::Global;
use std::marker::Model;

/// A finite map from words to words, which contracts see as its entries with ascending keys.
/// This project's own.
#[derive(Debug, Drop)]
pub struct WordMap {
    entries: Vec<(u64, u64)>,
}

impl Model for WordMap {
    ghost use Rattle.std.specs.Prelude.{◌≡◌, true, ℕ, List as Seq};

    ghost Value = { Seq (ℕ × ℕ) };

    ghost use Rattle.gv_words.specs.Maps.{ascends};

    ghost view = { λ m. m.entries.items };

    ghost invariant = { λ m. ascends m.entries.items ≡ true };
}

impl WordMap {
    /// The map without entries.
    pub fn new(alloc: Global) -> WordMap
        ensures { result ≡ [] }
    {
        WordMap {
            entries: Vec::new(alloc),
        }
    }

    /// How many entries there are.
    pub fn len(&self) -> usize
        ensures value { result ≡ length self.now }
        ensures within { result < 2 ^ 63 }
    {
        self.entries.len()
    }

    /// How many there are once an item stands under the key, or none does.
    pub fn len_after(&self, key: u64, item: Option<u64>) -> usize
        ensures value { result ≡ length (changed self.now key item) }
        ensures within { result ≤ 2 ^ 63 }
    {
        let len = self.entries.len();
        match find(self.entries.as_slice(), key) {
            Ok(_) => match item {
                Some(_) => len,
                None => len - 1,
            },
            Err(_) => match item {
                Some(_) => len + 1,
                None => len,
            },
        }
    }

    /// The item under a key. It takes time by the logarithm of the number of entries.
    pub fn get(&self, key: u64) -> Option<u64>
        ensures { result ≡ entry_at self.now key }
    {
        match find(self.entries.as_slice(), key) {
            Ok(place) => Some(self.entries[place].1),
            Err(_) => None,
        }
    }

    /// Puts an item under a key. The entries above it are moved by one where the key is new.
    pub fn put(&mut self, key: u64, item: u64) -> Result<(), NoMemory>
        ensures ok { OnOk result (self.new ≡ with_entry self.old key item) }
        ensures err { OnErr result (self.new ≡ self.old) }
    {
        match find(self.entries.as_slice(), key) {
            Ok(place) => self.entries[place] = (key, item),
            Err(place) => self.entries.insert(place, (key, item))?,
        }
        Ok(())
    }

    /// Takes the item under a key away, where there is one. The entries above it are moved by one.
    pub fn delete(&mut self, key: u64)
        ensures { self.new ≡ without self.old key }
    {
        match find(self.entries.as_slice(), key) {
            Ok(place) => {
                let _ = self.entries.remove(place);
            }
            Err(_) => {}
        }
    }
}
