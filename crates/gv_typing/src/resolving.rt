//! Terms of a store from terms as they stand in a text.

ghost use Rattle.std.specs.Prelude.{◌≡◌, ◌<◌, ◌⊎◌, ℕ, List as Seq, None, Some, [], length, IfOk, IfErr, IsSome, true};
ghost use Rattle.gv_base.specs.declared.answers.Code.{Code as AnyCode};
ghost use Rattle.gv_base.specs.declared.answers.Code.TheVariants as code;
ghost use Rattle.gv_terms.specs.Resolving.{resolved, HasFault};
ghost use Rattle.gv_terms.specs.Scopes.{is_closed};
ghost use Rattle.gv_terms.specs.Store.{tree_at, trees_at, AreIn, Grows};
ghost use Rattle.gv_terms.specs.Trees.{sort_of};
ghost use Rattle.gv_terms.specs.declared.tree.RawTerm.TheVariants as raw;
ghost use Rattle.gv_terms.specs.declared.tree.TermTree.TheVariants as tree;
ghost use Rattle.gv_termread.specs.declared.placed.Places.TheVariants as places;
ghost use Rattle.gv_typing.specs.Placing as spec;

use crate::term_fault::{Fault, TermFault, first_with};
use gv_base::{Code, List, Name};
use gv_termread::{PlacedTerm, Places};
use gv_terms::{Head, MakeFault, Node, Operator, RawTerm, Scope, Term, TermStore};
use std::alloc::Global;

// Where a node begins.
fn start_of(place: &Places) -> u32
    ensures { result ≡ spec.start_of place.now }
{
    match place {
        Places::At(start, _) => *start,
    }
}

// The places of a part, or the leaf where there are none.
fn place_below<'a>(place: &'a Places, leaf: &'a Places, at: usize) -> &'a Places
    requires { leaf.now ≡ places.At (spec.start_of place.now) [] }
    ensures { result.now ≡ spec.place_below place.now at }
{
    match place {
        Places::At(_, parts) => match parts.get(at) {
            Some(part) => part,
            None => leaf,
        },
    }
}

// The term of a name.
fn make_variable(
    alloc: Global,
    store: &mut TermStore,
    scope: &Scope,
    name: &Name,
    start: u32,
) -> Result<Term, TermFault>
    ensures within { IfOk result (λ t. t.id < length store.new) }
    ensures tree { IfOk result (λ t. resolved scope.now (raw.Variable name.now) ≡ Some (tree_at store.new t.id)) }
    ensures unknown { IfErr result (spec.IsUnknown scope.now name.now start) }
    ensures grows { Grows store.old store.new }
{
    let Some(sort) = scope.sort_of(name) else {
        return Err(TermFault::At {
            start,
            code: Code::Undeclared,
        });
    };
    let node = Node {
        head: Head::Variable {
            name: name.copy(alloc)?,
            sort,
        },
        parts: List::new(alloc),
    };
    match store.make(alloc, &node) {
        Ok(term) => Ok(term),
        Err(MakeFault::NoMemory) => Err(TermFault::NoMemory),
        Err(MakeFault::WrongSort) => unreachable!(),
    }
}

// The term of an operator over terms.
fn make_apply(
    alloc: Global,
    store: &mut TermStore,
    start: u32,
    operator: Operator,
    parts: Vec<Term>,
) -> Result<Term, TermFault>
    requires { AreIn store.old parts.items }
    ensures within { IfOk result (λ t. t.id < length store.new) }
    ensures made { IfOk result (λ t. tree_at store.new t.id ≡ tree.Apply operator (trees_at store.old parts.items)) }
    ensures sorted { IfOk result (λ t. IsSome (sort_of (tree.Apply operator (trees_at store.old parts.items)))) }
    ensures unsorted { IfErr result (spec.IsUnsorted operator (trees_at store.old parts.items) start) }
    ensures grows { Grows store.old store.new }
{
    let node = Node {
        head: Head::Apply(operator),
        parts: List::from_vec(parts),
    };
    match store.make(alloc, &node) {
        Ok(term) => Ok(term),
        Err(MakeFault::NoMemory) => Err(TermFault::NoMemory),
        Err(MakeFault::WrongSort) => Err(TermFault::At {
            start,
            code: Code::WrongType,
        }),
    }
}

// The term of a node that begins with its parts at these places, or its first fault.
fn make_node(
    alloc: Global,
    store: &mut TermStore,
    scope: &Scope,
    term: &RawTerm,
    place: &Places,
) -> Result<Term, TermFault>
    ensures within { IfOk result (λ t. t.id < length store.new) }
    ensures tree { IfOk result (λ t. resolved scope.now term.now ≡ Some (tree_at store.new t.id)) }
    ensures cause { IfErr result (spec.IsCause (spec.HasPlacedFault scope.now term.now place.now)) }
    ensures grows { Grows store.old store.new }
{
    match term {
        RawTerm::Variable(name) => make_variable(alloc, store, scope, name, start_of(place)),
        RawTerm::Apply(operator, parts) => {
            let leaf = Places::At(start_of(place), List::new(alloc));
            let parts = parts.as_slice();
            let mut terms = Vec::new(alloc);
            let mut first = None;
            for i in 0..parts.len() {
                let below = place_below(place, &leaf, i);
                match make_node(alloc, store, scope, &parts[i], below) {
                    Ok(term) => terms.push(term)?,
                    Err(TermFault::NoMemory) => return Err(TermFault::NoMemory),
                    Err(TermFault::At { start, code }) => {
                        first = Some(first_with(first, Fault { start, code }));
                    }
                }
            }
            match first {
                Some(fault) => Err(TermFault::from(fault)),
                None => make_apply(alloc, store, start_of(place), *operator, terms),
            }
        }
    }
}

/// The term of a term as it stands in a text, or its first fault among variables.
///
/// A name that no variable bears is `Undeclared`, at the name. A node without a sort whose parts have sorts is
/// `WrongType`, at its first token; a node with a faulty part is not tested. Of several faults that at the least place
/// counts, at one place that with the lower number. The store only grows, also where there is no term.
pub fn make_term(
    alloc: Global,
    store: &mut TermStore,
    scope: &Scope,
    term: &PlacedTerm,
) -> Result<Term, TermFault>
    ensures within { IfOk result (λ t. t.id < length store.new) }
    ensures tree { IfOk result (λ t. resolved scope.now term.now.term ≡ Some (tree_at store.new t.id)) }
    ensures sorted { IfOk result (λ t. IsSome (sort_of (tree_at store.new t.id))) }
    ensures closed { IfOk result (λ t. is_closed scope.now (tree_at store.new t.id) ≡ true) }
    ensures faultless { IfOk result (λ t. (path : Seq ℕ) (c : AnyCode) → HasFault scope.now term.now.term path c → ⊥) }
    ensures cause { IfErr result (spec.IsCause (spec.HasPlacedFault scope.now term.now.term term.now.places)) }
    ensures grows { Grows store.old store.new }
{
    make_node(alloc, store, scope, &term.term, &term.places)
}
