//! The specifications that tables name.

ghost use Rattle.std.specs.Prelude.{IsTrue};
ghost use Rattle.gv_terms.specs.Store.{AreIn};

use anyhow::{Result, bail};
use gv_atomic::{Assign, Field, Op, Pick, Spec, Var, make_spec};
use gv_base::{List, Name};
use gv_terms::{Head, Node, Operator, Sort, Term, TermStore};
use std::alloc::Global;

/// `counter` has one field n, first 0, which `Inc()` raises by one and `Add(k)` by its argument, both replying what it was, and
/// which a crash sets to 0. `drawer` has one field n, first 5; `Draw()` replies any number below 10, `Get()` replies n, and a
/// crash multiplies n by 0 or 1. `forms` has operations of several forms that do nothing: `Get()`, `Add(Word, Word)`,
/// `Put(Word, Bytes)`, `Flip(Bool)`, `call()` and `a.b()`.
#[derive(Drop)]
pub(crate) struct Specs {
    counter: Spec,
    drawer: Spec,
    forms: Spec,
}

impl Specs {
    /// The specification with a name.
    pub(crate) fn named(&self, name: &str) -> Option<&Spec> {
        match name {
            "counter" => Some(&self.counter),
            "drawer" => Some(&self.drawer),
            "forms" => Some(&self.forms),
            _ => None,
        }
    }
}

// Whether the store has made all of these.
fn holds(store: &TermStore, parts: &[Term]) -> bool
    ensures { IsTrue result → AreIn store.now parts.now }
{
    for part in parts {
        if part.id >= store.len() as u64 {
            return false;
        }
    }
    true
}

fn term(alloc: Global, store: &mut TermStore, head: Head, parts: &[Term]) -> Result<Term> {
    let parts = Vec::from_slice(alloc, parts)?;
    if !holds(store, parts.as_slice()) {
        bail!("a term of another store");
    }
    let parts = List::from_vec(parts);
    Ok(store.make(alloc, &Node { head, parts })?)
}

fn constant(alloc: Global, store: &mut TermStore, operator: Operator) -> Result<Term> {
    term(alloc, store, Head::Apply(operator), &[])
}

fn variable(alloc: Global, store: &mut TermStore, name: &[u8]) -> Result<Term> {
    let head = Head::Variable {
        name: Name::from_slice(alloc, name)?,
        sort: Sort::Word,
    };
    term(alloc, store, head, &[])
}

fn params(alloc: Global, sorts: &[Sort]) -> Result<List<Var>> {
    let mut params = Vec::new(alloc);
    for (i, sort) in sorts.iter().enumerate() {
        let letter = if i == 0 { b'k' } else { b'l' };
        params.push(Var {
            name: Name::from_slice(alloc, &[letter])?,
            sort: *sort,
        })?;
    }
    Ok(List::from_vec(params))
}

// An operation that may always be called, picks nothing, assigns nothing and replies nothing.
fn operation(alloc: Global, store: &mut TermStore, name: &[u8], sorts: &[Sort]) -> Result<Op> {
    Ok(Op {
        name: Name::from_slice(alloc, name)?,
        params: params(alloc, sorts)?,
        allowed: constant(alloc, store, Operator::True)?,
        picks: List::new(alloc),
        body: List::new(alloc),
        reply: None,
    })
}

// The number x below a bound.
fn pick(alloc: Global, store: &mut TermStore, bound: u64) -> Result<List<Pick>> {
    let bound = constant(alloc, store, Operator::Number(bound))?;
    let name = Name::from_slice(alloc, b"x")?;
    Ok(List::from_vec(vec![in alloc; Pick { name, bound }]?))
}

// The field n.
fn field(alloc: Global, store: &mut TermStore, first: u64) -> Result<List<Field>> {
    let field = Field {
        name: Name::from_slice(alloc, b"n")?,
        sort: Sort::Word,
        leased: false,
        first: constant(alloc, store, Operator::Number(first))?,
    };
    Ok(List::from_vec(vec![in alloc; field]?))
}

fn assign(alloc: Global, term: Term) -> Result<List<Assign>> {
    Ok(List::from_vec(vec![in alloc; Assign { field: 0, term }]?))
}

// An operation that adds a term to the field n, and replies the old n.
fn adds(
    alloc: Global,
    store: &mut TermStore,
    name: &[u8],
    sorts: &[Sort],
    more: Term,
) -> Result<Op> {
    let n = variable(alloc, store, b"n")?;
    let next = term(alloc, store, Head::Apply(Operator::Plus), &[n, more])?;
    let mut op = operation(alloc, store, name, sorts)?;
    op.body = assign(alloc, next)?;
    op.reply = Some(n);
    Ok(op)
}

fn counter(alloc: Global) -> Result<Spec> {
    let mut store = TermStore::new(alloc)?;
    let fields = field(alloc, &mut store, 0)?;
    let zero = constant(alloc, &mut store, Operator::Number(0))?;
    let one = constant(alloc, &mut store, Operator::Number(1))?;
    let k = variable(alloc, &mut store, b"k")?;
    let inc = adds(alloc, &mut store, b"Inc", &[], one)?;
    let add = adds(alloc, &mut store, b"Add", &[Sort::Word], k)?;
    let ops = List::from_vec(vec![in alloc; inc, add]?);
    let crash = assign(alloc, zero)?;
    let none = List::new(alloc);
    Ok(make_spec(alloc, 0, 0, fields, ops, none, crash, store)?)
}

fn drawer(alloc: Global) -> Result<Spec> {
    let mut store = TermStore::new(alloc)?;
    let fields = field(alloc, &mut store, 5)?;
    let n = variable(alloc, &mut store, b"n")?;
    let x = variable(alloc, &mut store, b"x")?;
    let mut draw = operation(alloc, &mut store, b"Draw", &[])?;
    draw.picks = pick(alloc, &mut store, 10)?;
    draw.reply = Some(x);
    let mut get = operation(alloc, &mut store, b"Get", &[])?;
    get.reply = Some(n);
    let ops = List::from_vec(vec![in alloc; draw, get]?);
    let picks = pick(alloc, &mut store, 2)?;
    let product = term(alloc, &mut store, Head::Apply(Operator::Times), &[n, x])?;
    let crash = assign(alloc, product)?;
    Ok(make_spec(alloc, 0, 0, fields, ops, picks, crash, store)?)
}

fn forms(alloc: Global) -> Result<Spec> {
    let mut store = TermStore::new(alloc)?;
    let mut ops = List::new(alloc);
    ops.push(operation(alloc, &mut store, b"Get", &[])?)?;
    ops.push(operation(alloc, &mut store, b"Add", &[Sort::Word, Sort::Word])?)?;
    ops.push(operation(alloc, &mut store, b"Put", &[Sort::Word, Sort::Bytes])?)?;
    ops.push(operation(alloc, &mut store, b"Flip", &[Sort::Bool])?)?;
    ops.push(operation(alloc, &mut store, b"call", &[])?)?;
    ops.push(operation(alloc, &mut store, b"a.b", &[])?)?;
    let (fields, picks, crash) = (List::new(alloc), List::new(alloc), List::new(alloc));
    Ok(make_spec(alloc, 0, 0, fields, ops, picks, crash, store)?)
}

/// All of them.
pub(crate) fn all_specs(alloc: Global) -> Result<Specs> {
    Ok(Specs {
        counter: counter(alloc)?,
        drawer: drawer(alloc)?,
        forms: forms(alloc)?,
    })
}
