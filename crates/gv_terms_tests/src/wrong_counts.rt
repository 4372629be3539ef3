//! Nodes with a wrong number of parts, which no text has: they have no sort.

ghost use Rattle.std.specs.Prelude.{◌<◌, length, IfOk};
ghost use Rattle.gv_terms.specs.Store.{AreIn, Grows};

use gv_base::{List, Name, NoMemory};
use gv_terms::{Head, MakeFault, Node, Operator, Sort, Term, TermStore};
use std::alloc::Global;

static WRONG_COUNTS: [(Operator, &'static [Sort]); 46] = [
    (Operator::Number(1), &[Sort::Word]),
    (Operator::True, &[Sort::Bool]),
    (Operator::Nil, &[Sort::Ref]),
    (Operator::MapWW, &[Sort::MapWW]),
    (Operator::Not, &[]),
    (Operator::Not, &[Sort::Bool, Sort::Bool]),
    (Operator::Complement, &[]),
    (Operator::Complement, &[Sort::Word, Sort::Word]),
    (Operator::Or, &[Sort::Bool]),
    (Operator::Or, &[Sort::Bool, Sort::Bool, Sort::Bool]),
    (Operator::And, &[]),
    (Operator::Imp, &[Sort::Bool]),
    (Operator::Equal, &[]),
    (Operator::Equal, &[Sort::Word]),
    (Operator::Equal, &[Sort::Word, Sort::Word, Sort::Word]),
    (Operator::Less, &[Sort::Word]),
    (Operator::AtMost, &[Sort::Word, Sort::Word, Sort::Word]),
    (Operator::Plus, &[Sort::Word]),
    (Operator::Plus, &[Sort::Word, Sort::Word, Sort::Word]),
    (Operator::Divide, &[Sort::Word]),
    (Operator::ShiftLeft, &[Sort::Word]),
    (Operator::BitClear, &[Sort::Word]),
    (Operator::If, &[]),
    (Operator::If, &[Sort::Bool]),
    (Operator::If, &[Sort::Bool, Sort::Word]),
    (
        Operator::If,
        &[Sort::Bool, Sort::Word, Sort::Word, Sort::Word],
    ),
    (Operator::Fits, &[Sort::Word]),
    (Operator::Bytes(1), &[]),
    (Operator::Bytes(1), &[Sort::Word, Sort::Word]),
    (Operator::Len, &[]),
    (Operator::Len, &[Sort::Bytes, Sort::Bytes]),
    (Operator::At, &[Sort::Bytes]),
    (Operator::Upd, &[Sort::Bytes, Sort::Word]),
    (
        Operator::Upd,
        &[Sort::Bytes, Sort::Word, Sort::Word, Sort::Word],
    ),
    (Operator::Sub, &[Sort::Bytes, Sort::Word]),
    (Operator::Cat, &[Sort::Bytes]),
    (Operator::Le64, &[]),
    (Operator::Put64, &[Sort::Bytes]),
    (Operator::Get, &[Sort::MapWW]),
    (Operator::Put, &[Sort::MapWW, Sort::Word]),
    (Operator::Del, &[Sort::MapWW]),
    (Operator::SLen, &[]),
    (Operator::Sl, &[Sort::SliceS, Sort::Word]),
    (
        Operator::Sl,
        &[Sort::SliceS, Sort::Word, Sort::Word, Sort::Word],
    ),
    (Operator::SCap, &[]),
    (Operator::SCap, &[Sort::SliceS, Sort::SliceS]),
];

// The name of the variable with a number.
fn letter(alloc: Global, number: usize) -> Result<Name, NoMemory> {
    Name::from_slice(alloc, &[b'a' + (number % 26) as u8])
}

// The variable with a number.
fn variable(
    alloc: Global,
    store: &mut TermStore,
    number: usize,
    sort: Sort,
) -> Result<Term, MakeFault>
    ensures within { IfOk result (λ t. t.id < length store.new) }
    ensures grows { Grows store.old store.new }
{
    let head = Head::Variable {
        name: letter(alloc, number)?,
        sort,
    };
    let node = Node {
        head,
        parts: List::new(alloc),
    };
    store.make(alloc, &node)
}

// Variables of these sorts.
#[tactic(auto, using(gv_terms::proofs::Grown::one_more_in))]
fn variables(alloc: Global, store: &mut TermStore, sorts: &[Sort]) -> Result<Vec<Term>, MakeFault>
    ensures { IfOk result (λ v. AreIn store.new v.items) }
{
    let mut terms = Vec::new(alloc);
    for (i, sort) in sorts.iter().enumerate() {
        let variable = variable(alloc, store, i, *sort)?;
        terms.push(variable)?;
    }
    Ok(terms)
}

// The sort of an operator over variables of these sorts, or none.
fn sort_of(alloc: Global, operator: Operator, sorts: &[Sort]) -> Result<Option<Sort>, MakeFault> {
    let mut store = TermStore::new(alloc)?;
    let terms = variables(alloc, &mut store, sorts)?;
    let node = Node {
        head: Head::Apply(operator),
        parts: List::from_vec(terms),
    };
    match store.make(alloc, &node) {
        Ok(t) => Ok(Some(store.sort_of(t))),
        Err(MakeFault::WrongSort) => Ok(None),
        Err(MakeFault::NoMemory) => Err(MakeFault::NoMemory),
    }
}

#[test]
fn nodes_with_a_wrong_count_have_no_sort(rt: HostRuntime) -> Result<(), MakeFault> {
    for (operator, sorts) in &WRONG_COUNTS {
        let sort = sort_of(rt.alloc(), *operator, *sorts)?;
        assert!(rt; sort.is_none(), "{operator:?}");
    }
    Ok(())
}
