//! Search trees that share their parts.

ghost use Rattle.std.specs.Prelude.{◌≡◌, ◌∷◌, ◌++◌, true, length, IfOk};
ghost use Rattle.gv_trees.specs.Trees.{entries, sized, size_of};

use gv_base::NoMemory;
use std::alloc::Global;
use std::rc::Rc;

/// A search tree, whose copies share its forks. This project's own.
#[derive(Debug, Drop)]
#[cycle(tree)]
pub(crate) enum Tree<V> {
    Leaf,
    Fork(Rc<Fork<V>>),
}

/// An entry between those with smaller keys and those with greater ones, and how many they are together.
#[derive(Debug, Drop)]
#[cycle(tree)]
pub(crate) struct Fork<V> {
    pub left: Tree<V>,
    pub key: u64,
    pub item: V,
    pub right: Tree<V>,
    pub size: usize,
}

impl<V: Drop> Tree<V> {
    /// How many entries there are.
    pub fn len(&self) -> usize
        ensures { result ≡ size_of self.now }
    {
        match self {
            Tree::Leaf => 0,
            Tree::Fork(fork) => fork.size,
        }
    }

    /// A tree with the same entries, which shares its forks.
    pub fn copy(&self) -> Result<Tree<V>, NoMemory>
        ensures entries { IfOk result (λ t. entries t ≡ entries self.now) }
        ensures sized { IfOk result (λ t. sized t ≡ sized self.now) }
    {
        match self {
            Tree::Leaf => Ok(Tree::Leaf),
            Tree::Fork(fork) => Ok(Tree::Fork(fork.clone()?)),
        }
    }

    /// The tree of an entry between two trees. More than 2^64 - 1 entries have no room in any memory.
    pub fn fork(
        alloc: Global,
        left: Tree<V>,
        key: u64,
        item: V,
        right: Tree<V>,
    ) -> Result<Tree<V>, NoMemory>
        ensures entries { IfOk result (λ t. entries t ≡ entries left ++ ((key, item) ∷ entries right)) }
        ensures sized { sized left ≡ true → sized right ≡ true → IfOk result (λ t. sized t ≡ true) }
    {
        let beside = left.len().checked_add(right.len()).ok_or(NoMemory)?;
        let size = beside.checked_add(1).ok_or(NoMemory)?;
        let fork = Fork {
            left,
            key,
            item,
            right,
            size,
        };
        Ok(Tree::Fork(Rc::new(alloc, fork)?))
    }
}
