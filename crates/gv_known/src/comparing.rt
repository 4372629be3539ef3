//! Whether two terms have one tree.

ghost use Rattle.std.specs.Prelude.{◌≡◌, ◌↔◌, ◌<◌, length, IsTrue};
ghost use Rattle.gv_terms.specs.Store.{tree_at};
ghost use Rattle.gv_certs.specs.Trees.{tree_eq};

use gv_base::Steps;
use gv_terms::{Term, TermStore};
use std::marker::Brand;
use std::sync::ledger::{Blank, Ledger};

// The same, with a counter of its own.
fn counted<L: Ledger>(blank: Blank, store: &TermStore, a: Term, b: Term) -> bool
    requires name { blank.name ≡ L.name }
    requires parts { blank.parts ≡ L.parts }
    requires some_part { 0 < blank.parts }
    requires first { a.id < length store.now }
    requires second { b.id < length store.now }
    ensures { IsTrue result ↔ (tree_at store.now a.id ≡ tree_at store.now b.id) }
{
    let mut steps = Steps::<L>::new(blank);
    store.same(a, b, &mut steps)
}

/// Whether the trees of the two terms are equal.
#[tactic(auto, using(crate::proofs::Trees::same_test))]
pub fn same(store: &TermStore, a: Term, b: Term) -> bool
    requires first { a.id < length store.now }
    requires second { b.id < length store.now }
    ensures { result ≡ tree_eq (tree_at store.now a.id) (tree_at store.now b.id) }
{
    counted::<Brand>(Blank::new(1), store, a, b)
}
