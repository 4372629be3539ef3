//! Finite maps from words.

ghost use Rattle.std.specs.Prelude.{◌≡◌, ◌↔◌, [], length, slice_get, IfOk, IsTrue};
ghost use Rattle.std.specs.Option.{option_copied};
ghost use Rattle.gv_words.specs.Maps.{entry_at, with_entry, without};
ghost use Rattle.gv_trees.specs.Trees.{shown_entry};

use crate::item::Item;
use crate::tree::Tree;
use gv_base::NoMemory;
use std::alloc::Global;
use std::marker::Model;

/// A finite map from words, which contracts see as its entries with ascending keys. Copies share the entries,
/// and a map that is made of another shares most of them with it. This project's own.
#[derive(Debug, Drop)]
pub struct FiniteMap<V> {
    tree: Tree<V>,
}

impl<V> Model for FiniteMap<V> {
    ghost use Rattle.std.specs.Prelude.{◌≡◌, ℕ, true, List as Seq};

    ghost Value = { Seq (ℕ × V) };

    ghost use Rattle.gv_words.specs.Maps.{ascends};
    ghost use Rattle.gv_trees.specs.Trees.{entries, IsSearchTree};

    ghost view = { λ m. entries m.tree };

    ghost invariant = { λ m. IsSearchTree m.tree };
}

impl<V: Item> FiniteMap<V> {
    /// The map without entries.
    pub fn new() -> FiniteMap<V>
        ensures { result ≡ [] }
    {
        FiniteMap { tree: Tree::Leaf }
    }

    /// How many entries there are.
    pub fn len(&self) -> usize
        ensures { result ≡ length self.now }
    {
        self.tree.len()
    }

    /// What the map holds under a key. It takes time by the logarithm of the number of entries.
    pub fn get(&self, key: u64) -> Option<&V>
        ensures { option_copied result ≡ entry_at self.now key }
    {
        self.tree.get(key)
    }

    /// The entry at a place in the order of keys, counted from 0, where there is one. It takes time by the logarithm of the number of
    /// entries.
    pub fn entry(&self, place: usize) -> Option<(u64, &V)>
        ensures { shown_entry result ≡ slice_get self.now place }
    {
        self.tree.entry(place)
    }

    /// An equal map, which shares its entries. It takes the same time however many there are.
    pub fn copy(&self) -> Result<FiniteMap<V>, NoMemory>
        ensures { IfOk result (λ m. m ≡ self.now) }
    {
        let tree = self.tree.copy()?;
        Ok(FiniteMap { tree })
    }

    /// Whether the two maps are equal.
    pub fn same(&self, other: &FiniteMap<V>) -> bool
        ensures { IsTrue result ↔ (self.now ≡ other.now) }
    {
        if self.len() != other.len() {
            return false;
        }
        for place in 0..self.len() {
            if !same_entries(self.entry(place), other.entry(place)) {
                return false;
            }
        }
        true
    }

    /// The map with an item under a key. It takes time and memory by the logarithm of the number of entries.
    pub fn with(&self, alloc: Global, key: u64, item: V) -> Result<FiniteMap<V>, NoMemory>
        ensures { IfOk result (λ m. m ≡ with_entry self.now key item) }
    {
        let tree = self.tree.with(alloc, key, item)?;
        Ok(FiniteMap { tree })
    }

    /// The map without a key. It takes time and memory by the logarithm of the number of entries.
    pub fn without(&self, alloc: Global, key: u64) -> Result<FiniteMap<V>, NoMemory>
        ensures { IfOk result (λ m. m ≡ without self.now key) }
    {
        let tree = self.tree.without(alloc, key)?;
        Ok(FiniteMap { tree })
    }
}

// Whether two entries are equal, or neither is there.
fn same_entries<V: Item>(first: Option<(u64, &V)>, second: Option<(u64, &V)>) -> bool
    ensures { IsTrue result ↔ (shown_entry first.entry ≡ shown_entry second.entry) }
{
    match (first, second) {
        (None, None) => true,
        (Some((key, item)), Some((other_key, other_item))) => {
            key == other_key && item.same(other_item)
        }
        _ => false,
    }
}
