//! What a tree holds.

ghost use Rattle.std.specs.Prelude.{◌≡◌, true, slice_get};
ghost use Rattle.std.specs.Option.{option_copied};
ghost use Rattle.gv_words.specs.Maps.{ascends, entry_at};
ghost use Rattle.gv_trees.specs.Trees.{entries, shown_entry, sized};

use crate::tree::Tree;

impl<V: Drop> Tree<V> {
    /// The item under a key. It takes time by the logarithm of the number of entries.
    pub fn get(&self, key: u64) -> Option<&V>
        ensures { ascends (entries self.now) ≡ true → option_copied result ≡ entry_at (entries self.now) key }
    {
        match self {
            Tree::Leaf => None,
            Tree::Fork(fork) => {
                if key < fork.key {
                    fork.left.get(key)
                } else if fork.key < key {
                    fork.right.get(key)
                } else {
                    Some(&fork.item)
                }
            }
        }
    }

    /// The entry at a place in the order of keys, where there is one. It takes time by the logarithm of the number
    /// of entries.
    pub fn entry(&self, place: usize) -> Option<(u64, &V)>
        ensures { sized self.now ≡ true → shown_entry result ≡ slice_get (entries self.now) place }
    {
        match self {
            Tree::Leaf => None,
            Tree::Fork(fork) => {
                let before = fork.left.len();
                if place < before {
                    fork.left.entry(place)
                } else if place == before {
                    Some((fork.key, &fork.item))
                } else {
                    fork.right.entry(place - before - 1)
                }
            }
        }
    }
}
