//! Facts that are found by their keys.

ghost use Rattle.std.specs.Prelude.{◌≡◌, ◌<◌, ◌≤◌, ◌++◌, ◌∷◌, [], length, take, IsTrue, IfOk, OnErr};
ghost use Rattle.gv_terms.specs.Store.{AreIn};
ghost use Rattle.gv_known.specs.Finding.{IsIn, IsEquationIn};

use crate::comparing::same;
use crate::facts::is_equation;
use crate::keys::{key_of, key_of_equation};
use gv_base::NoMemory;
use gv_terms::{Term, TermStore};
use std::alloc::Global;
use std::collections::BTreeMap;
use std::marker::Model;

// The key of a fact, and how many facts there are up to the last one before it with this key; 0 where none has it.
#[derive(Debug, Drop)]
struct Mark {
    key: u64,
    before: usize,
}

/// Facts of one store in the order in which they were added, which contracts see as the list of their terms. A fact is found
/// by a key that is made of its tree. What is told never rests on the keys: a fact that they don't lead to is looked for among
/// all. This project's own.
#[derive(Debug, Drop)]
pub struct Facts {
    terms: Vec<Term>,
    marks: Vec<Mark>,
    // by keys, how many facts there are up to the last one that has it
    last: BTreeMap<u64, usize>,
}

impl Model for Facts {
    ghost use Rattle.std.specs.Prelude.{List as Seq};
    ghost use Rattle.gv_terms.specs.declared.term.Term.{Term};

    ghost Value = { Seq Term };

    ghost view = { λ s. s.terms.items };
}

impl Facts {
    /// No facts.
    pub fn new(alloc: Global) -> Facts
        ensures { result ≡ [] }
    {
        Facts {
            terms: Vec::new(alloc),
            marks: Vec::new(alloc),
            last: BTreeMap::new(alloc),
        }
    }

    /// How many facts there are.
    pub fn len(&self) -> usize
        ensures { result ≡ length self.now }
    {
        self.terms.len()
    }

    /// The facts, in order.
    pub fn as_slice(&self) -> &[Term]
        ensures { result.now ≡ self.now }
    {
        self.terms.as_slice()
    }

    /// Adds a fact behind the others.
    pub fn push(&mut self, store: &TermStore, fact: Term) -> Result<(), NoMemory>
        requires { fact.id < length store.now }
        ensures added { IfOk result (λ _. self.new ≡ self.old ++ fact ∷ []) }
        ensures kept { OnErr result (self.new ≡ self.old) }
    {
        let key = key_of(store, fact);
        let before = self.up_to_last(key);
        self.marks.truncate(self.terms.len());
        self.marks.push(Mark { key, before })?;
        let _ = self.last.insert(key, self.marks.len())?;
        self.terms.push(fact)?;
        Ok(())
    }

    /// Keeps the first facts, so many, and takes the others away.
    pub fn truncate(&mut self, len: usize)
        ensures { self.new ≡ take len self.old }
    {
        for at in len..self.marks.len() {
            self.forget(at, len);
        }
        self.marks.truncate(len);
        self.terms.truncate(len);
    }

    // The key of a fact leads to those before the first ones so many again, where it is the first behind them that has it.
    fn forget(&mut self, at: usize, len: usize)
        ensures { self.new ≡ self.old }
    {
        let Some(mark) = self.marks.get(at) else {
            return;
        };
        if mark.before == 0 {
            let _ = self.last.remove(&mark.key);
        } else if mark.before <= len {
            if let Some(up_to) = self.last.get_mut(&mark.key) {
                *up_to = mark.before;
            }
        }
    }

    // How many facts there are up to the last one with a key, or 0.
    fn up_to_last(&self, key: u64) -> usize {
        self.last.get(&key).copied().unwrap_or(0)
    }

    // How many facts there are up to the one before a fact that has its key, or 0.
    fn up_to_before(&self, at: usize) -> usize
        ensures { result ≤ at }
    {
        match self.marks.get(at) {
            Some(mark) => mark.before.min(at),
            None => 0,
        }
    }

    /// Whether the keys lead to a fact that is this term.
    #[tactic(auto, using(crate::proofs::Trees::found_at))]
    pub(crate) fn finds(&self, store: &TermStore, term: Term) -> bool
        requires all { AreIn store.now self.now }
        requires one { term.id < length store.now }
        ensures { IsTrue result → IsIn store.now self.now term }
    {
        let mut up_to = self.up_to_last(key_of(store, term));
        while up_to > 0 {
            let at = up_to - 1;
            if at < self.terms.len() && same(store, self.terms[at], term) {
                return true;
            }
            up_to = self.up_to_before(at);
        }
        false
    }

    /// Whether the keys lead to a fact that is the equation of two terms.
    #[tactic(auto, using(crate::proofs::Trees::found_at))]
    pub(crate) fn finds_equation(&self, store: &TermStore, a: Term, b: Term) -> bool
        requires all { AreIn store.now self.now }
        requires first { a.id < length store.now }
        requires second { b.id < length store.now }
        ensures { IsTrue result → IsEquationIn store.now self.now a b }
    {
        let mut up_to = self.up_to_last(key_of_equation(store, a, b));
        while up_to > 0 {
            let at = up_to - 1;
            if at < self.terms.len() && is_equation(store, self.terms[at], a, b) {
                return true;
            }
            up_to = self.up_to_before(at);
        }
        false
    }
}
