//! Trees whose two sides don't differ much.

ghost use Rattle.std.specs.Prelude.{◌≡◌, ◌∷◌, ◌++◌, true, IfOk};
ghost use Rattle.gv_trees.specs.Trees.{entries, sized};

use crate::item::Item;
use crate::tree::Tree;
use gv_base::NoMemory;
use std::alloc::Global;

// Whether one side is too heavy beside the other: a side has at most three times the other's weight, which is its entries
// and one.
fn outweighs(one: usize, other: usize) -> bool {
    one / 3 > other
}

// Whether the inner part of a heavy side is too heavy to go over whole: it has at least twice the outer one's weight.
fn is_split(inner: usize, outer: usize) -> bool {
    inner - inner / 2 > outer
}

impl<V: Item> Tree<V> {
    /// The tree of an entry between two trees, where one of them may be an entry heavier than it should be.
    pub fn balanced(
        alloc: Global,
        left: Tree<V>,
        key: u64,
        item: V,
        right: Tree<V>,
    ) -> Result<Tree<V>, NoMemory>
        ensures entries { IfOk result (λ t. entries t ≡ entries left ++ ((key, item) ∷ entries right)) }
        ensures sized { sized left ≡ true → sized right ≡ true → IfOk result (λ t. sized t ≡ true) }
    {
        if outweighs(right.len(), left.len()) {
            turned_left(alloc, left, key, item, right)
        } else if outweighs(left.len(), right.len()) {
            turned_right(alloc, left, key, item, right)
        } else {
            Tree::fork(alloc, left, key, item, right)
        }
    }
}

// The tree with a part of its right side brought over.
fn turned_left<V: Item>(
    alloc: Global,
    left: Tree<V>,
    key: u64,
    item: V,
    right: Tree<V>,
) -> Result<Tree<V>, NoMemory>
    ensures entries { IfOk result (λ t. entries t ≡ entries left ++ ((key, item) ∷ entries right)) }
    ensures sized { sized left ≡ true → sized right ≡ true → IfOk result (λ t. sized t ≡ true) }
{
    match &right {
        Tree::Leaf => Tree::fork(alloc, left, key, item, Tree::Leaf),
        Tree::Fork(fork) => {
            let middle = fork.left.copy()?;
            let outer = fork.right.copy()?;
            let above = fork.item.copy(alloc)?;
            let before = (left, key, item);
            if is_split(middle.len(), outer.len()) {
                between(alloc, before, middle, (fork.key, above, outer))
            } else {
                behind_whole(alloc, before, middle, (fork.key, above, outer))
            }
        }
    }
}

// The tree with a part of its left side brought over.
fn turned_right<V: Item>(
    alloc: Global,
    left: Tree<V>,
    key: u64,
    item: V,
    right: Tree<V>,
) -> Result<Tree<V>, NoMemory>
    ensures entries { IfOk result (λ t. entries t ≡ entries left ++ ((key, item) ∷ entries right)) }
    ensures sized { sized left ≡ true → sized right ≡ true → IfOk result (λ t. sized t ≡ true) }
{
    match &left {
        Tree::Leaf => Tree::fork(alloc, Tree::Leaf, key, item, right),
        Tree::Fork(fork) => {
            let outer = fork.left.copy()?;
            let middle = fork.right.copy()?;
            let below = fork.item.copy(alloc)?;
            if is_split(middle.len(), outer.len()) {
                let before = (outer, fork.key, below);
                between(alloc, before, middle, (key, item, right))
            } else {
                let inner = Tree::fork(alloc, middle, key, item, right)?;
                Tree::fork(alloc, outer, fork.key, below, inner)
            }
        }
    }
}

// The tree of what stands before a middle part, the middle part, and what stands behind it: the first two go together.
fn behind_whole<V: Item>(
    alloc: Global,
    before: (Tree<V>, u64, V),
    middle: Tree<V>,
    behind: (u64, V, Tree<V>),
) -> Result<Tree<V>, NoMemory>
    ensures entries { IfOk result (λ t. entries t
        ≡ entries before.0 ++ ((before.1, before.2) ∷ (entries middle ++ ((behind.0, behind.1) ∷ entries behind.2)))) }
    ensures sized { sized before.0 ≡ true → sized middle ≡ true → sized behind.2 ≡ true → IfOk result (λ t. sized t ≡ true) }
{
    let left = Tree::fork(alloc, before.0, before.1, before.2, middle)?;
    Tree::fork(alloc, left, behind.0, behind.1, behind.2)
}

// The tree of what stands before a middle part, the middle part, and what stands behind it: the middle part's root is the
// root, and its two sides go to the two others.
fn between<V: Item>(
    alloc: Global,
    before: (Tree<V>, u64, V),
    middle: Tree<V>,
    behind: (u64, V, Tree<V>),
) -> Result<Tree<V>, NoMemory>
    ensures entries { IfOk result (λ t. entries t
        ≡ entries before.0 ++ ((before.1, before.2) ∷ (entries middle ++ ((behind.0, behind.1) ∷ entries behind.2)))) }
    ensures sized { sized before.0 ≡ true → sized middle ≡ true → sized behind.2 ≡ true → IfOk result (λ t. sized t ≡ true) }
{
    match &middle {
        Tree::Leaf => {
            let right = Tree::fork(alloc, Tree::Leaf, behind.0, behind.1, behind.2)?;
            Tree::fork(alloc, before.0, before.1, before.2, right)
        }
        Tree::Fork(fork) => {
            let first = fork.left.copy()?;
            let last = fork.right.copy()?;
            let left = Tree::fork(alloc, before.0, before.1, before.2, first)?;
            let right = Tree::fork(alloc, last, behind.0, behind.1, behind.2)?;
            Tree::fork(alloc, left, fork.key, fork.item.copy(alloc)?, right)
        }
    }
}
