//! What all paths of a check share, and what a procedure promises.

ghost use Rattle.std.specs.Prelude.{◌≡◌, ◌↔◌, [], IfOk, IsTrue};
ghost use Rattle.gv_commands.specs.declared.decls.Decls.{Decls};
ghost use Rattle.gv_assertions.specs.Kept.{IsDurable, IsPersistent, IsTokenFree};
ghost use Rattle.gv_asserts.specs.Atoms.{atom_at};
ghost use Rattle.gv_asserts.specs.Kinds.{table_of};
ghost use Rattle.gv_asserts.specs.Predicates.{predicates_of, AreEarlier};

use crate::heap::Heap;
use crate::keeping::{atom_keeps, table_of};
use crate::quality::{Kept, Quality};
use gv_atomic::Spec;
use gv_base::NoMemory;
use gv_commands::{Atom, Decls};
use gv_terms::{Term, TermStore};
use std::alloc::Global;

/// The store of all terms, the specification, and what the script declares, whose predicates name earlier ones alone. A call leaves all
/// as it is but that the store may hold more terms. This project's own.
#[derive(Drop)]
pub struct Cx<'c> {
    pub store: TermStore,
    pub spec: &'c Spec,
    pub decls: &'c Decls,
    kept: Vec<Kept>,
    ghost earlier: { AreEarlier decls.now.preds },
    ghost exact: { kept.items ≡ table_of decls.now.preds },
}

/// What the end of a procedure's paths owes. This project's own.
#[derive(Clone, Copy, Debug, PartialEq, Eq)]
pub enum Owes {
    /// That recovery boots and closes the crash invariant.
    Boot,
    /// The reply of a call.
    Reply,
    /// What the procedure under this number promises of its results.
    Post(u32),
}

/// How a procedure's block starts, and what it owes. This project's own.
#[derive(Drop)]
pub struct Contract {
    pub start: Heap,
    pub owes: Owes,
}

impl<'c> Cx<'c> {
    /// What paths share before there are terms, in time linear in the declarations.
    pub fn new(alloc: Global, spec: &'c Spec, decls: &'c Decls) -> Result<Cx<'c>, NoMemory>
        requires { AreEarlier decls.now.preds }
        ensures store { IfOk result (λ cx. cx.store ≡ []) }
        ensures spec { IfOk result (λ cx. cx.spec.now ≡ spec.now) }
        ensures decls { IfOk result (λ cx. cx.decls.now ≡ decls.now) }
    {
        let kept = table_of(alloc, decls.preds.as_slice())?;
        let store = TermStore::new(alloc)?;
        Ok(Cx {
            store,
            spec,
            decls,
            kept,
        })
    }
}

/// Whether a crash keeps all that an atom names, through every case of every predicate. This project's own.
pub fn durable(cx: &Cx, atom: &Atom<Term>) -> bool
    ensures { IsTrue result ↔ IsDurable (predicates_of cx.now.decls.now.preds) (atom_at cx.now.store atom.now) }
{
    atom_keeps(Quality::Durable, cx.kept.as_slice(), atom)
}

/// Whether all that an atom names may be copied, through every case of every predicate. This project's own.
pub fn persistent(cx: &Cx, atom: &Atom<Term>) -> bool
    ensures { IsTrue result ↔ IsPersistent (predicates_of cx.now.decls.now.preds) (atom_at cx.now.store atom.now) }
{
    atom_keeps(Quality::Persistent, cx.kept.as_slice(), atom)
}

/// Whether an atom names no token, through every case of every predicate. This project's own.
pub fn token_free(cx: &Cx, atom: &Atom<Term>) -> bool
    ensures { IsTrue result ↔ IsTokenFree (predicates_of cx.now.decls.now.preds) (atom_at cx.now.store atom.now) }
{
    atom_keeps(Quality::TokenFree, cx.kept.as_slice(), atom)
}
