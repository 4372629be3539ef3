//! Terms of a store from terms as they were read.

ghost use Rattle.std.specs.Prelude.{◌≡◌, ◌<◌, ◌∷◌, ◌⊎◌, ℕ, List as Seq, true, None, Some, length, IfOk, IfErr, IsSome};
ghost use Rattle.gv_base.specs.declared.answers.Code.{Code as Kind};
ghost use Rattle.gv_base.specs.declared.answers.Code.TheVariants as code;
ghost use Rattle.gv_terms.specs.Resolving.{resolved, HasFault, IsCause, IsOwnFault};
ghost use Rattle.gv_terms.specs.Scopes.{is_closed};
ghost use Rattle.gv_terms.specs.Store.{tree_at, trees_at, AreIn, Grows};
ghost use Rattle.gv_terms.specs.Trees.{sort_of};
ghost use Rattle.gv_terms.specs.declared.resolving.ResolveFault.TheVariants as answer;
ghost use Rattle.gv_terms.specs.declared.tree.RawTerm.TheVariants as raw;
ghost use Rattle.gv_terms.specs.declared.tree.TermTree.TheVariants as tree;

use crate::operator::Operator;
use crate::scope::Scope;
use crate::store::TermStore;
use crate::term::{MakeFault, Node, Term};
use crate::tree::{Head, RawTerm};
use gv_base::{Code, List, Name, NoMemory};
use std::alloc::{AllocError, AllocFailed, Global};
use thiserror::Error;

/// Why a term as it was read is no term of a store: memory was refused, or the node at a path is at
/// fault. The path is the numbers of the parts, from 0, that lead to the node from the root; the code is
/// `Undeclared` of a name that no variable bears, and `WrongType` of a node whose parts have sorts and
/// that has none. This project's own.
#[derive(Debug, PartialEq, Eq, Drop, Error)]
pub enum ResolveFault {
    #[error("out of memory")]
    NoMemory,
    #[error("a term is refused")]
    At { path: List<u64>, code: Code },
}

impl From<NoMemory> for ResolveFault {
    ghost from_gives = { λ _ e. e ≡ answer.NoMemory };

    fn from(_e: NoMemory) -> ResolveFault {
        ResolveFault::NoMemory
    }
}

impl From<AllocError> for ResolveFault {
    ghost from_gives = { λ _ e. e ≡ answer.NoMemory };

    fn from(_e: AllocError) -> ResolveFault {
        ResolveFault::NoMemory
    }
}

impl<T: Drop> From<AllocFailed<T>> for ResolveFault {
    ghost from_gives = { λ _ e. e ≡ answer.NoMemory };

    fn from(_e: AllocFailed<T>) -> ResolveFault {
        ResolveFault::NoMemory
    }
}

// The fault of a part, as one of the node above it.
fn of_part(part: u64, path: List<u64>, code: Code) -> ResolveFault
    ensures { (result ≡ answer.NoMemory) ⊎ (result ≡ answer.At (part ∷ path) code) }
{
    let mut numbers = path.into_vec();
    match numbers.insert(0, part) {
        Ok(()) => ResolveFault::At {
            path: List::from_vec(numbers),
            code,
        },
        Err(_) => ResolveFault::NoMemory,
    }
}

// The term of a name.
fn resolve_variable(
    alloc: Global,
    store: &mut TermStore,
    scope: &Scope,
    name: &Name,
) -> Result<Term, ResolveFault>
    ensures within { IfOk result (λ t. t.id < length store.new) }
    ensures tree { IfOk result (λ t. resolved scope.now (raw.Variable name.now) ≡ Some (tree_at store.new t.id)) }
    ensures cause { IfErr result (IsCause scope.now (raw.Variable name.now)) }
    ensures grows { Grows store.old store.new }
{
    let Some(sort) = scope.sort_of(name) else {
        return Err(ResolveFault::At {
            path: List::new(alloc),
            code: Code::Undeclared,
        });
    };
    let node = Node {
        head: Head::Variable {
            name: name.copy(alloc)?,
            sort,
        },
        parts: List::new(alloc),
    };
    match store.make(alloc, &node) {
        Ok(term) => Ok(term),
        Err(MakeFault::NoMemory) => Err(ResolveFault::NoMemory),
        Err(MakeFault::WrongSort) => unreachable!(),
    }
}

// The term of an operator over terms.
fn resolve_apply(
    alloc: Global,
    store: &mut TermStore,
    operator: Operator,
    parts: Vec<Term>,
) -> Result<Term, ResolveFault>
    requires { AreIn store.old parts.items }
    ensures within { IfOk result (λ t. t.id < length store.new) }
    ensures made { IfOk result (λ t. tree_at store.new t.id ≡ tree.Apply operator (trees_at store.old parts.items)) }
    ensures sorted { IfOk result (λ t. IsSome (sort_of (tree.Apply operator (trees_at store.old parts.items)))) }
    ensures cause { IfErr result (IsOwnFault operator (trees_at store.old parts.items)) }
    ensures grows { Grows store.old store.new }
{
    let node = Node {
        head: Head::Apply(operator),
        parts: List::from_vec(parts),
    };
    match store.make(alloc, &node) {
        Ok(term) => Ok(term),
        Err(MakeFault::NoMemory) => Err(ResolveFault::NoMemory),
        Err(MakeFault::WrongSort) => Err(ResolveFault::At {
            path: List::new(alloc),
            code: Code::WrongType,
        }),
    }
}

/// The term that a term as it was read stands for among variables, or its first fault in the order of
/// the parts. A name that no variable bears is at fault, and a node without a sort whose parts have sorts;
/// a node with a faulty part is not tested. The store only grows, also where there is no term. The call
/// recurses as deep as the term is nested.
pub fn resolve(
    alloc: Global,
    store: &mut TermStore,
    scope: &Scope,
    term: &RawTerm,
) -> Result<Term, ResolveFault>
    ensures within { IfOk result (λ t. t.id < length store.new) }
    ensures tree { IfOk result (λ t. resolved scope.now term.now ≡ Some (tree_at store.new t.id)) }
    ensures sorted { IfOk result (λ t. IsSome (sort_of (tree_at store.new t.id))) }
    ensures closed { IfOk result (λ t. is_closed scope.now (tree_at store.new t.id) ≡ true) }
    ensures faultless { IfOk result (λ t. (path : Seq ℕ) (c : Kind) → HasFault scope.now term.now path c → ⊥) }
    ensures cause { IfErr result (IsCause scope.now term.now) }
    ensures grows { Grows store.old store.new }
{
    match term {
        RawTerm::Variable(name) => resolve_variable(alloc, store, scope, name),
        RawTerm::Apply(operator, parts) => {
            let parts = parts.as_slice();
            let mut terms = Vec::new(alloc);
            for i in 0..parts.len() {
                match resolve(alloc, store, scope, &parts[i]) {
                    Ok(term) => terms.push(term)?,
                    Err(ResolveFault::NoMemory) => return Err(ResolveFault::NoMemory),
                    Err(ResolveFault::At { path, code }) => {
                        return Err(of_part(i as u64, path, code));
                    }
                }
            }
            resolve_apply(alloc, store, *operator, terms)
        }
    }
}
