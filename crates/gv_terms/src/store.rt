//! The store that makes terms.

ghost use Rattle.std.specs.List.{All};
ghost use Rattle.std.specs.Prelude.{◌≡◌, ◌↔◌, ◌<◌, [], true, length, Some, None, IsTrue, IsSome, IfOk, IfErr, map};
ghost use Rattle.gv_terms.specs.Ranges.{numbers_are_words};
ghost use Rattle.gv_terms.specs.Trees.{branches_of, root_of, sort_of, sort_of_node};
ghost use Rattle.gv_terms.specs.declared.term.MakeFault.TheVariants as fault;
ghost use Rattle.gv_terms.specs.Store.{tree_at, trees_at, node_tree, AreIn, Grows, IsSoundAt, AreSound, trees_of};

use crate::sort::Sort;
use crate::stored::Stored;
use crate::term::{MakeFault, Node, Term};
use crate::tree::{Head, TermTree};
use gv_base::{List, NoMemory, Steps};
use std::alloc::Global;
use std::marker::Model;
use std::sync::ledger::Ledger;

/// Terms by number, which contracts see as the list of their trees. It only grows, and a term that
/// was made keeps its tree. This project's own.
#[derive(Debug, Drop)]
pub struct TermStore {
    nodes: Vec<Stored>,
}

impl Model for TermStore {
    ghost use Rattle.std.specs.Prelude.{List as Seq};
    ghost use Rattle.gv_terms.specs.declared.tree.TermTree.{TermTree as Tree};
    ghost use Rattle.gv_terms.specs.Store.{trees_of, AreSound};
    ghost use Rattle.gv_terms.specs.contracts.tree.TermTree as row;
    ghost use Rattle.std.specs.Coded.{codes};

    ghost Value = { Seq Tree };

    ghost coded = { Prim.hlevel (codes, row.the_row.coded) };

    ghost view = { λ s. trees_of s.nodes.items };

    ghost invariant = { λ s. AreSound s.nodes.items };
}

impl TermStore {
    /// The store without terms.
    #[tactic(auto, unfolding(crate::specs::Store::trees_of))]
    pub fn new(alloc: Global) -> Result<TermStore, NoMemory>
        ensures { IfOk result (λ s. s ≡ []) }
    {
        Ok(TermStore {
            nodes: Vec::new(alloc),
        })
    }

    // What the store keeps of a term.
    fn node(&self, t: Term) -> &Stored
        requires { t.id < length self.now }
        ensures { IsSoundAt self.now t.id result.now }
    {
        &self.nodes[t.id as usize]
    }

    /// How many terms were made.
    pub fn len(&self) -> usize
        ensures { result ≡ length self.now }
    {
        self.nodes.len()
    }

    // What the store keeps, in the order in which it was made.
    pub(crate) fn nodes(&self) -> &[Stored]
        ensures trees { trees_of result.now ≡ self.now }
        ensures sound { AreSound result.now }
    {
        self.nodes.as_slice()
    }

    /// The sort of a term.
    pub fn sort_of(&self, t: Term) -> Sort
        requires { t.id < length self.now }
        ensures { sort_of (tree_at self.now t.id) ≡ Some result }
    {
        self.node(t).sort
    }

    /// What stands at the root of a term.
    pub fn head_of(&self, t: Term) -> &Head
        requires { t.id < length self.now }
        ensures { result.now ≡ root_of (tree_at self.now t.id) }
    {
        &self.node(t).head
    }

    /// The parts of a term, in order. Each was made before it.
    pub fn parts_of(&self, t: Term) -> &[Term]
        requires { t.id < length self.now }
        ensures trees { trees_at self.now result.now ≡ branches_of (tree_at self.now t.id) }
        ensures earlier { All (λ p. p.id < t.id) result.now }
    {
        self.node(t).parts.as_slice()
    }

    /// Says that each number in a term of the store is a word.
    pub fn numbers_are_words(&self)
        ensures { All (λ t. numbers_are_words t ≡ true) self.now }
    {
        let _nodes = &self.nodes;
    }

    // The sorts of several terms.
    fn sorts_of(&self, alloc: Global, parts: &[Term]) -> Result<Vec<Sort>, NoMemory>
        requires { AreIn self.now parts.now }
        ensures { IfOk result (λ v. map sort_of (trees_at self.now parts.now) ≡ map (λ s. Some s) v.items) }
    {
        let mut sorts = Vec::new(alloc);
        for part in parts {
            sorts.push(self.sort_of(*part))?;
        }
        Ok(sorts)
    }

    /// The term of a node, where the node has a sort.
    pub fn make(&mut self, alloc: Global, node: &Node) -> Result<Term, MakeFault>
        requires { AreIn self.old node.now.parts }
        ensures within { IfOk result (λ t. t.id < length self.new) }
        ensures made { IfOk result (λ t. tree_at self.new t.id ≡ node_tree self.old node.now) }
        ensures sorted { IfOk result (λ t. IsSome (sort_of_node node.now.head (trees_at self.old node.now.parts))) }
        ensures words { IfOk result (λ t. numbers_are_words (tree_at self.new t.id) ≡ true) }
        ensures cause { IfErr result (λ e. e ≡ fault.WrongSort → sort_of_node node.now.head (trees_at self.old node.now.parts) ≡ None) }
        ensures grows { Grows self.old self.new }
    {
        let sorts = self.sorts_of(alloc, node.parts.as_slice())?;
        let Some(sort) = node.head.sort_given(sorts.as_slice()) else {
            return Err(MakeFault::WrongSort);
        };
        node.head.holds_a_word();
        let stored = Stored {
            head: node.head.copy(alloc)?,
            parts: List::from_vec(Vec::from_slice(alloc, node.parts.as_slice())?),
            sort,
        };
        let id = self.nodes.len() as u64;
        self.nodes.push(stored)?;
        Ok(Term { id })
    }

    /// The tree of a term.
    pub fn tree_of(&self, alloc: Global, t: Term) -> Result<TermTree, NoMemory>
        requires { t.id < length self.now }
        ensures { IfOk result (λ tree. tree ≡ tree_at self.now t.id) }
    {
        let node = self.node(t);
        match &node.head {
            Head::Variable { name, sort } => Ok(TermTree::Variable {
                name: name.copy(alloc)?,
                sort: *sort,
            }),
            Head::Apply(operator) => {
                let mut parts = Vec::new(alloc);
                for part in node.parts.as_slice() {
                    parts.push(self.tree_of(alloc, *part)?)?;
                }
                Ok(TermTree::Apply(*operator, List::from_vec(parts)))
            }
        }
    }

    /// Whether the trees of the two terms are equal.
    pub fn same<L: Ledger>(&self, a: Term, b: Term, steps: &mut Steps<L>) -> bool
        requires first { a.id < length self.now }
        requires second { b.id < length self.now }
        ensures { IsTrue result ↔ (tree_at self.now a.id ≡ tree_at self.now b.id) }
    {
        steps.tick();
        if a.id == b.id {
            return true;
        }
        let first = self.node(a);
        let second = self.node(b);
        if !first.head.same(&second.head) {
            return false;
        }
        match &first.head {
            Head::Variable { .. } => true,
            Head::Apply(_) => {
                let these = first.parts.as_slice();
                let those = second.parts.as_slice();
                if these.len() != those.len() {
                    return false;
                }
                for i in 0..these.len() {
                    if !self.same(these[i], those[i], steps) {
                        return false;
                    }
                }
                true
            }
        }
    }
}
