//! Atoms that are found by their keys.

ghost use Rattle.std.specs.Prelude.{◌≡◌, ◌↔◌, ◌∷◌, [], ◌<◌, ◌≤◌, ◌+◌, length, IsTrue};
ghost use Rattle.gv_terms.specs.Store.{tree_at, trees_at, AreIn};
ghost use Rattle.gv_asserts.specs.Keys as spec;
ghost use Rattle.gv_asserts.specs.Keys.{HasKey, IsFirst, IsKeyIn, IsFoundIn, AreFoundIn, trees_eq};

use crate::cx::Cx;
use crate::heap::Heap;
use crate::key::{Key, kind_of};
use gv_base::Steps;
use gv_commands::{Atom, Simple};
use gv_known::same;
use gv_terms::{Term, TermStore};
use std::sync::ledger::Ledger;

// Whether terms have the trees of others, in order.
#[tactic(auto, using(crate::proofs::Alike::differ_here, crate::proofs::Alike::same_here, crate::proofs::Alike::none_behind, crate::proofs::Alike::other_length))]
fn are_alike(store: &TermStore, terms: &[Term], others: &[Term]) -> bool
    requires terms { AreIn store.now terms.now }
    requires others { AreIn store.now others.now }
    ensures { result ≡ trees_eq (trees_at store.now others.now) (trees_at store.now terms.now) }
{
    if terms.len() != others.len() {
        return false;
    }
    for i in 0..terms.len() {
        if !same(store, others[i], terms[i]) {
            return false;
        }
    }
    true
}

// The same, said of the trees.
fn are_same(store: &TermStore, terms: &[Term], others: &[Term]) -> bool
    requires terms { AreIn store.now terms.now }
    requires others { AreIn store.now others.now }
    ensures { IsTrue result ↔ (trees_at store.now others.now ≡ trees_at store.now terms.now) }
{
    are_alike(store, terms, others)
}

// Whether terms are those of an atom's key.
fn has_terms(store: &TermStore, terms: &[Term], atom: &Simple<Term>) -> bool
    requires all { AreIn store.now terms.now }
    requires atom { AreIn store.now (spec.key_of atom.now) }
    ensures { IsTrue result ↔ (trees_at store.now (spec.key_of atom.now) ≡ trees_at store.now terms.now) }
{
    match atom {
        Simple::Cell { object, .. } | Simple::Ro { object, .. } => are_same(
            store,
            terms,
            &[*object],
        ),
        Simple::Slice { slice, .. } | Simple::Roslice { slice, .. } | Simple::Spare { slice } =>
            are_same(store, terms, &[*slice]),
        Simple::Map { map, .. } => are_same(store, terms, &[*map]),
        Simple::Mutex { mutex } | Simple::Held { mutex } | Simple::Lock { mutex, .. } => are_same(
            store,
            terms,
            &[*mutex],
        ),
        Simple::Master { disk, address, .. } | Simple::Lease { disk, address, .. } => are_same(
            store,
            terms,
            &[*disk, *address],
        ),
        Simple::Down { disk } => are_same(store, terms, &[*disk]),
        Simple::Field { .. } | Simple::Flease { .. } => are_same(store, terms, &[]),
        Simple::Bmaster { place, .. } | Simple::Blease { place, .. } => {
            are_same(store, terms, &[*place])
        }
        Simple::Token { call, .. } | Simple::Done { call, .. } => are_same(store, terms, &[*call]),
        Simple::Half { name, .. } => are_same(store, terms, &[*name]),
        Simple::Instance(inst) => are_same(store, terms, inst.args.as_slice()),
    }
}

// Whether an atom has a key.
fn has_key(store: &TermStore, key: &Key, atom: &Atom<Term>) -> bool
    requires key { IsKeyIn store.now key.now }
    requires atom { IsFoundIn store.now atom.now }
    ensures { IsTrue result ↔ HasKey store.now key.now atom.now }
{
    match (key, atom) {
        (Key::Simple { kind, terms }, Atom::Simple(simple)) => {
            kind_of(simple) == *kind && has_terms(store, terms.as_slice(), simple)
        }
        (Key::Each(kind), Atom::Each(each)) => kind_of(&each.body) == *kind,
        _ => false,
    }
}

/// The stamp of the first atom of a path state with this key, where there is one. A step is one comparison of two keys, and there are as
/// many as atoms up to the one that is found, or as all. This project's own.
pub fn find<L: Ledger>(cx: &Cx, heap: &Heap, key: &Key, steps: &mut Steps<L>) -> Option<u32>
    requires key { IsKeyIn cx.now.store key.now }
    requires atoms { AreFoundIn cx.now.store heap.now.atoms.items }
    ensures first { IsFirst cx.now.store key.now heap.now.atoms.items result }
    ensures steps { steps.new ≤ steps.old + length heap.now.atoms.items }
{
    let items = heap.atoms.as_slice();
    for i in 0..items.len() {
        steps.tick();
        let item = &items[i];
        if has_key(&cx.store, key, &item.atom) {
            return Some(item.stamp);
        }
    }
    None
}
