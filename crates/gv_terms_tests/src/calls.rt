//! Each public call once, on its happy path.

ghost use Rattle.std.specs.Prelude.{◌≡◌, ◌<◌, length, IfOk};

use gv_base::{Code, List, Name, NoMemory, Steps};
use gv_terms::{
    Binding, Env, Head, Operator, RawTerm, ResolveFault, Scope, Sort, Term, TermStore, TermTree,
    Value, eval, resolve,
};
use gv_trees::FiniteMap;
use std::alloc::Global;
use std::marker::Brand;
use std::sync::ledger::{Blank, Ledger};
use std::test::Fail;

// The name of these bytes.
fn name(alloc: Global, bytes: &[u8]) -> Result<Name, NoMemory> {
    Name::from_slice(alloc, bytes)
}

// x as a word, m as a map.
fn scope(alloc: Global) -> Result<Scope, NoMemory> {
    let mut scope = Scope::new(alloc);
    scope.declare(name(alloc, b"x")?, Sort::Word)?;
    scope.declare(name(alloc, b"m")?, Sort::MapWW)?;
    Ok(scope)
}

fn number(alloc: Global, n: u64) -> RawTerm {
    RawTerm::Apply(Operator::Number(n), List::new(alloc))
}

fn over(alloc: Global, operator: Operator, parts: Vec<RawTerm>) -> RawTerm {
    RawTerm::Apply(operator, List::from_vec(parts))
}

// put(m, x, so many)
fn put(alloc: Global, map: RawTerm, n: u64) -> Result<RawTerm, NoMemory> {
    let key = RawTerm::Variable(name(alloc, b"x")?);
    let parts = vec![in alloc; map, key, number(alloc, n)]?;
    Ok(over(alloc, Operator::Put, parts))
}

// put(m, x, so many), as a term of the store.
fn put_in(alloc: Global, store: &mut TermStore, scope: &Scope, n: u64) -> Result<Term, ResolveFault>
    ensures { IfOk result (λ t. t.id < length store.new) }
{
    let raw = put(alloc, RawTerm::Variable(name(alloc, b"m")?), n)?;
    resolve(alloc, store, scope, &raw.copy(alloc)?)
}

// The map of these entries.
fn map_of(alloc: Global, entries: &[(u64, u64)]) -> Result<Value, NoMemory> {
    let mut map = FiniteMap::new();
    for (key, item) in entries {
        map = map.with(alloc, *key, *item)?;
    }
    Ok(Value::MapWW(map))
}

fn bind(alloc: Global, env: &mut Env, bytes: &[u8], value: Value) -> Result<(), NoMemory> {
    let name = name(alloc, bytes)?;
    env.bindings.push(Binding { name, value })?;
    Ok(())
}

// x is 1, and m has 30 under 3.
fn valuation(alloc: Global) -> Result<Env, NoMemory> {
    let mut env = Env {
        bindings: List::new(alloc),
    };
    bind(alloc, &mut env, b"x", Value::Word(1))?;
    bind(alloc, &mut env, b"m", map_of(alloc, &[(3, 30)])?)?;
    Ok(env)
}

#[test]
fn a_term_is_resolved_and_valued(rt: HostRuntime) -> Result<(), Fail> {
    let alloc = rt.alloc();
    let mut store = TermStore::new(alloc)?;
    let term = put_in(alloc, &mut store, &scope(alloc)?, 7)?;
    let value = eval(alloc, &store, term, &valuation(alloc)?)?;
    assert!(rt; value.same(&map_of(alloc, &[(1, 7), (3, 30)])?));
    assert_eq!(rt; store.sort_of(term), Sort::MapWW);
    assert_eq!(rt; store.parts_of(term).len(), 3);
    assert!(rt; store.head_of(term).same(&Head::Apply(Operator::Put)));
    Ok(())
}

// Whether two terms of a store have one tree.
fn have_one_tree<L: Ledger>(blank: Blank, store: &TermStore, a: Term, b: Term) -> bool
    requires name { blank.name ≡ L.name }
    requires parts { blank.parts ≡ L.parts }
    requires some_part { 0 < blank.parts }
    requires first { a.id < length store.now }
    requires second { b.id < length store.now }
{
    let mut steps = Steps::<L>::new(blank);
    store.same(a, b, &mut steps)
}

fn is_put(tree: &TermTree) -> bool {
    match tree {
        TermTree::Apply(operator, parts) => operator.same(Operator::Put) && parts.len() == 3,
        TermTree::Variable { .. } => false,
    }
}

// The same term made again has the same tree under another number, and a term of another number has another tree.
#[test]
fn terms_have_trees(rt: HostRuntime) -> Result<(), Fail> {
    let alloc = rt.alloc();
    let scope = scope(alloc)?;
    let mut store = TermStore::new(alloc)?;
    let first = put_in(alloc, &mut store, &scope, 7)?;
    let second = put_in(alloc, &mut store, &scope, 7)?;
    let third = put_in(alloc, &mut store, &scope, 8)?;
    let made = store.len() as u64;
    assert!(rt; first.id < made && second.id < made && third.id < made);
    assert!(rt; first != second);
    assert!(rt; have_one_tree::<Brand>(Blank::new(1), &store, first, second));
    assert!(rt; !have_one_tree::<Brand>(Blank::new(1), &store, first, third));
    assert!(rt; is_put(&store.tree_of(alloc, first)?));
    Ok(())
}

// The sort of a name.
fn sort_under(alloc: Global, scope: &Scope, bytes: &[u8]) -> Result<Option<Sort>, NoMemory> {
    Ok(scope.sort_of(&name(alloc, bytes)?))
}

// A name stays with its first sort, and goes with the others that were declared after it.
#[test]
fn names_are_declared_once(rt: HostRuntime) -> Result<(), Fail> {
    let alloc = rt.alloc();
    let mut scope = scope(alloc)?;
    assert!(rt; !scope.declare(name(alloc, b"x")?, Sort::Bool)?);
    assert_eq!(rt; scope.len(), 2);
    scope.truncate(1);
    assert_eq!(rt; scope.len(), 1);
    assert_eq!(rt; sort_under(alloc, &scope, b"x")?, Some(Sort::Word));
    assert_eq!(rt; sort_under(alloc, &scope, b"m")?, None);
    Ok(())
}

// The path and the code of a fault.
fn fault_of(alloc: Global, raw: &RawTerm) -> Result<Option<(List<u64>, Code)>, NoMemory> {
    let mut store = TermStore::new(alloc)?;
    let scope = scope(alloc)?;
    match resolve(alloc, &mut store, &scope, raw) {
        Ok(_) => Ok(None),
        Err(ResolveFault::At { path, code }) => Ok(Some((path, code))),
        Err(ResolveFault::NoMemory) => Err(NoMemory),
    }
}

#[test]
fn the_first_fault_has_its_path(rt: HostRuntime) -> Result<(), Fail> {
    let alloc = rt.alloc();
    let unknown = RawTerm::Variable(name(alloc, b"z")?);
    let faulty = put(alloc, unknown, 7)?;
    let parts = vec![in alloc; number(alloc, 1), faulty]?;
    let raw = over(alloc, Operator::Equal, parts);
    let (path, code) = fault_of(alloc, &raw)?.ok_or("no fault")?;
    assert_eq!(rt; path.as_slice(), [1, 0].as_slice());
    assert_eq!(rt; code, Code::Undeclared);
    let parts = vec![in alloc;
        number(alloc, 1),
        over(alloc, Operator::True, Vec::new(alloc)),
    ]?;
    let raw = over(alloc, Operator::Less, parts);
    let (path, code) = fault_of(alloc, &raw)?.ok_or("no fault")?;
    assert!(rt; path.is_empty());
    assert_eq!(rt; code, Code::WrongType);
    Ok(())
}
