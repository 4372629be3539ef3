//! The atoms of a path state, in the order of their stamps.

ghost use Rattle.std.specs.Prelude.{◌≡◌, ◌<◌, ◌+◌, ◌^◌, ◌++◌, ◌∷◌, [], length, IfOk, OnOk, OnErr};
ghost use Rattle.gv_asserts.specs.Stamps.{pushed, numbered};

use crate::stamped::Stamped;
use gv_base::NoMemory;
use gv_commands::Atom;
use gv_terms::Term;
use std::alloc::Global;
use std::marker::Model;

// How many atoms there may be: 2^32 - 2.
const MOST: usize = 4_294_967_294;

/// The atoms of a path state, in the order in which they were added, which contracts see with their stamps, and with the last stamp
/// that was given. Stamps are below 2^32, and there are fewer than 2^32 - 1 atoms. This project's own.
#[derive(Debug, Drop)]
pub struct Atoms {
    items: Vec<Stamped>,
    last: u32,
}

impl Model for Atoms {
    ghost use Rattle.gv_asserts.specs.Stamps.{Stamps, AreStamped};

    ghost Value = { Stamps };

    ghost view = { λ s. record { items = s.items.items; last = s.last } };

    ghost invariant = { λ s. AreStamped (record { items = s.items.items; last = s.last }) };
}

// Gives the atoms the stamps from 1 on, in order.
fn renumber(items: &mut Vec<Stamped>)
    requires { length items.old.items < 2 ^ 32 }
    ensures { items.new.items ≡ numbered 1 items.old.items }
{
    for i in 0..items.len() {
        items[i].stamp = i as u32 + 1;
    }
}

// Adds an atom with a stamp.
fn add(items: &mut Vec<Stamped>, stamp: u32, atom: Atom<Term>) -> Result<(), NoMemory>
    ensures added { OnOk result (items.new.items ≡ items.old.items ++ (record { stamp = stamp; atom = atom }) ∷ []) }
    ensures kept { OnErr result (items.new.items ≡ items.old.items) }
{
    items.push(Stamped { stamp, atom })?;
    Ok(())
}

// Adds an atom, and gives all the stamps from 1 on; the last one is the answer.
#[tactic(auto, using(crate::proofs::Numbering::numbered_more))]
fn add_anew(items: &mut Vec<Stamped>, atom: Atom<Term>) -> Result<u32, NoMemory>
    requires few { length items.old.items < 4294967294 }
    ensures added { OnOk result (items.new.items ≡ numbered 1 items.old.items ++ (record { stamp = length items.old.items + 1; atom = atom }) ∷ []) }
    ensures last { IfOk result (λ n. n ≡ length items.old.items + 1) }
    ensures kept { OnErr result (items.new.items ≡ items.old.items) }
{
    let stamp = items.len() as u32 + 1;
    add(items, stamp, atom)?;
    renumber(items);
    Ok(stamp)
}

impl Atoms {
    /// No atoms.
    pub fn new(alloc: Global) -> Atoms
        ensures { result ≡ record { items = []; last = 0 } }
    {
        Atoms {
            items: Vec::new(alloc),
            last: 0,
        }
    }

    /// How many atoms there are.
    pub fn len(&self) -> usize
        ensures { result ≡ length self.now.items }
    {
        self.items.len()
    }

    /// The atoms with their stamps, in order.
    pub fn as_slice(&self) -> &[Stamped]
        ensures { result.now ≡ self.now.items }
    {
        self.items.as_slice()
    }

    /// Adds an atom behind the others. It gets the next stamp; where that would pass 2^32 - 1, all are numbered anew from 1, in order. There
    /// are 2^32 - 2 atoms at most: one more is want of memory.
    #[tactic(auto, using(crate::proofs::Numbering::ascend_more, crate::proofs::Numbering::anew))]
    pub fn push(&mut self, atom: Atom<Term>) -> Result<(), NoMemory>
        ensures added { IfOk result (λ _. self.new ≡ pushed self.old atom) }
        ensures few { OnOk result (length self.old.items < 4294967294) }
        ensures kept { OnErr result (self.new ≡ self.old) }
    {
        if self.items.len() >= MOST {
            return Err(NoMemory);
        }
        if self.last == u32::MAX {
            let last = add_anew(&mut self.items, atom)?;
            self.last = last;
        } else {
            let stamp = self.last + 1;
            add(&mut self.items, stamp, atom)?;
            self.last = stamp;
        }
        Ok(())
    }
}
