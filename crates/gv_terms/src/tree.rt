//! Terms as trees.

ghost use Rattle.std.specs.Prelude.{◌≡◌, ◌↔◌, IfOk, IsTrue, true};
ghost use Rattle.gv_terms.specs.declared.tree.Head.TheVariants as head;
ghost use Rattle.gv_terms.specs.Ranges.{holds_word};
ghost use Rattle.gv_terms.specs.Trees.{head_sort};

use crate::operator::Operator;
use crate::sort::Sort;
use gv_base::{List, Name, NoMemory};
use gv_trees::Item;
use std::alloc::Global;

/// What stands at the root of a term: a variable with its sort, or an operator. This project's own.
#[derive(Debug, PartialEq, Eq, Drop)]
pub enum Head {
    Variable { name: Name, sort: Sort },
    Apply(Operator),
}

impl Head {
    /// An equal head.
    pub fn copy(&self, alloc: Global) -> Result<Head, NoMemory>
        ensures { IfOk result (λ h. h ≡ self.now) }
    {
        match self {
            Head::Variable { name, sort } => Ok(Head::Variable {
                name: name.copy(alloc)?,
                sort: *sort,
            }),
            Head::Apply(operator) => Ok(Head::Apply(*operator)),
        }
    }

    /// Whether the two heads are equal.
    pub fn same(&self, other: &Head) -> bool
        ensures { IsTrue result ↔ (self.now ≡ other.now) }
    {
        match self {
            Head::Variable { name, sort } => other.is_variable(name, *sort),
            Head::Apply(operator) => other.is_apply(*operator),
        }
    }

    /// Says that the number, where the head is one, is a word.
    pub fn holds_a_word(&self)
        ensures { holds_word self.now ≡ true }
    {
        match self {
            Head::Variable { .. } => (),
            Head::Apply(operator) => operator.holds_a_word(),
        }
    }

    fn is_variable(&self, name: &Name, sort: Sort) -> bool
        ensures { IsTrue result ↔ (head.Variable name.now sort ≡ self.now) }
    {
        match self {
            Head::Variable { name: n, sort: s } => name.same(n) && sort == *s,
            Head::Apply(_) => false,
        }
    }

    fn is_apply(&self, operator: Operator) -> bool
        ensures { IsTrue result ↔ (head.Apply operator ≡ self.now) }
    {
        match self {
            Head::Variable { .. } => false,
            Head::Apply(o) => operator.same(*o),
        }
    }

    /// The sort of a node with this head over parts of these sorts, where it has one.
    pub fn sort_given(&self, parts: &[Sort]) -> Option<Sort>
        ensures { result ≡ head_sort self.now parts.now }
    {
        match self {
            Head::Variable { sort, .. } => match parts {
                [] => Some(*sort),
                _ => None,
            },
            Head::Apply(operator) => operator.sort_given(parts),
        }
    }
}

/// A term as a tree: a variable with its sort, or an operator over its parts in order.
/// This project's own.
#[derive(Debug, PartialEq, Eq, Drop)]
pub enum TermTree {
    Variable { name: Name, sort: Sort },
    Apply(Operator, List<TermTree>),
}

/// A term as it was read, whose variables have no sort yet. This project's own.
#[derive(Debug, PartialEq, Eq, Drop)]
pub enum RawTerm {
    Variable(Name),
    Apply(Operator, List<RawTerm>),
}

impl RawTerm {
    /// An equal term.
    pub fn copy(&self, alloc: Global) -> Result<RawTerm, NoMemory>
        ensures { IfOk result (λ t. t ≡ self.now) }
    {
        match self {
            RawTerm::Variable(name) => Ok(RawTerm::Variable(name.copy(alloc)?)),
            RawTerm::Apply(operator, parts) => {
                let mut copies = Vec::new(alloc);
                for part in parts.as_slice() {
                    copies.push(part.copy(alloc)?)?;
                }
                Ok(RawTerm::Apply(*operator, List::from_vec(copies)))
            }
        }
    }
}
