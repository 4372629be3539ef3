//! Trees with an entry more or less.

ghost use Rattle.std.specs.Prelude.{◌≡◌, ◌∷◌, ◌++◌, true, IfOk};
ghost use Rattle.gv_words.specs.Maps.{ascends, with_entry, without};
ghost use Rattle.gv_trees.specs.Trees.{entries, entries_of, sized, sized_below};

use crate::item::Item;
use crate::tree::{Fork, Tree};
use gv_base::NoMemory;
use std::alloc::Global;

impl<V: Item> Tree<V> {
    /// The tree with an item under a key.
    pub fn with(&self, alloc: Global, key: u64, item: V) -> Result<Tree<V>, NoMemory>
        ensures entries { ascends (entries self.now) ≡ true → IfOk result (λ t. entries t ≡ with_entry (entries self.now) key item) }
        ensures sized { sized self.now ≡ true → IfOk result (λ t. sized t ≡ true) }
    {
        match self {
            Tree::Leaf => Tree::fork(alloc, Tree::Leaf, key, item, Tree::Leaf),
            Tree::Fork(fork) => {
                if key < fork.key {
                    let left = fork.left.with(alloc, key, item)?;
                    fork.with_left(alloc, left)
                } else if fork.key < key {
                    let right = fork.right.with(alloc, key, item)?;
                    fork.with_right(alloc, right)
                } else {
                    let left = fork.left.copy()?;
                    Tree::fork(alloc, left, key, item, fork.right.copy()?)
                }
            }
        }
    }

    /// The tree without a key.
    pub fn without(&self, alloc: Global, key: u64) -> Result<Tree<V>, NoMemory>
        ensures entries { ascends (entries self.now) ≡ true → IfOk result (λ t. entries t ≡ without (entries self.now) key) }
        ensures sized { sized self.now ≡ true → IfOk result (λ t. sized t ≡ true) }
    {
        match self {
            Tree::Leaf => Ok(Tree::Leaf),
            Tree::Fork(fork) => {
                if key < fork.key {
                    let left = fork.left.without(alloc, key)?;
                    fork.with_left(alloc, left)
                } else if fork.key < key {
                    let right = fork.right.without(alloc, key)?;
                    fork.with_right(alloc, right)
                } else {
                    joined(alloc, &fork.left, &fork.right)
                }
            }
        }
    }
}

impl<V: Item> Fork<V> {
    // The tree with another left side.
    fn with_left(&self, alloc: Global, left: Tree<V>) -> Result<Tree<V>, NoMemory>
        ensures entries { IfOk result (λ t. entries t ≡ entries left ++ ((self.now.key, self.now.item) ∷ entries self.now.right)) }
        ensures sized { sized left ≡ true → sized self.now.right ≡ true → IfOk result (λ t. sized t ≡ true) }
    {
        let right = self.right.copy()?;
        Tree::balanced(alloc, left, self.key, self.item.copy(alloc)?, right)
    }

    // The tree with another right side.
    fn with_right(&self, alloc: Global, right: Tree<V>) -> Result<Tree<V>, NoMemory>
        ensures entries { IfOk result (λ t. entries t ≡ entries self.now.left ++ ((self.now.key, self.now.item) ∷ entries right)) }
        ensures sized { sized self.now.left ≡ true → sized right ≡ true → IfOk result (λ t. sized t ≡ true) }
    {
        let left = self.left.copy()?;
        Tree::balanced(alloc, left, self.key, self.item.copy(alloc)?, right)
    }

    // The first entry, and the tree of those behind it.
    fn split_first(&self, alloc: Global) -> Result<(u64, V, Tree<V>), NoMemory>
        ensures entries { IfOk result (λ r. entries_of self.now ≡ (r.0, r.1) ∷ entries r.2) }
        ensures sized { sized_below self.now ≡ true → IfOk result (λ r. sized r.2 ≡ true) }
    {
        match &self.left {
            Tree::Leaf => {
                let item = self.item.copy(alloc)?;
                Ok((self.key, item, self.right.copy()?))
            }
            Tree::Fork(left) => {
                let (key, item, rest) = left.split_first(alloc)?;
                Ok((key, item, self.with_left(alloc, rest)?))
            }
        }
    }
}

// The tree of one tree's entries and another one's behind them.
fn joined<V: Item>(alloc: Global, left: &Tree<V>, right: &Tree<V>) -> Result<Tree<V>, NoMemory>
    ensures entries { IfOk result (λ t. entries t ≡ entries left.now ++ entries right.now) }
    ensures sized { sized left.now ≡ true → sized right.now ≡ true → IfOk result (λ t. sized t ≡ true) }
{
    match right {
        Tree::Leaf => left.copy(),
        Tree::Fork(fork) => {
            let (key, item, rest) = fork.split_first(alloc)?;
            Tree::balanced(alloc, left.copy()?, key, item, rest)
        }
    }
}
