//! Each public call once, on its happy path.

ghost use Rattle.std.specs.Prelude.{◌<◌, length, IfOk};

use gv_base::{List, Name, NoMemory};
use gv_known::{Facts, is_reflexive, known, same};
use gv_terms::{Operator, RawTerm, ResolveFault, Scope, Sort, Term, TermStore, resolve};
use std::alloc::Global;
use std::test::Fail;

// x and y as words.
fn scope(alloc: Global) -> Result<Scope, NoMemory> {
    let mut scope = Scope::new(alloc);
    scope.declare(Name::from_slice(alloc, b"x")?, Sort::Word)?;
    scope.declare(Name::from_slice(alloc, b"y")?, Sort::Word)?;
    Ok(scope)
}

fn variable(alloc: Global, bytes: &[u8]) -> Result<RawTerm, NoMemory> {
    Ok(RawTerm::Variable(Name::from_slice(alloc, bytes)?))
}

fn number(alloc: Global, n: u64) -> RawTerm {
    RawTerm::Apply(Operator::Number(n), List::new(alloc))
}

// The operator over two, as a term of the store.
fn over(
    alloc: Global,
    store: &mut TermStore,
    operator: Operator,
    a: RawTerm,
    b: RawTerm,
) -> Result<Term, ResolveFault>
    ensures { IfOk result (λ t. t.id < length store.new) }
{
    let parts = vec![in alloc; a, b]?;
    let raw = RawTerm::Apply(operator, List::from_vec(parts));
    resolve(alloc, store, &scope(alloc)?, &raw)
}

// `x == y` is known where `y == x` is a fact, and `1 < 2` from nothing; `x == 1` isn't known. Facts that are taken away are known no more.
#[test]
fn formulas_are_known(rt: HostRuntime) -> Result<(), Fail> {
    let alloc = rt.alloc();
    let mut store = TermStore::new(alloc)?;
    let x = variable(alloc, b"x")?;
    let y = variable(alloc, b"y")?;
    let turned = over(alloc, &mut store, Operator::Equal, y, x)?;
    let x = variable(alloc, b"x")?;
    let y = variable(alloc, b"y")?;
    let equal = over(alloc, &mut store, Operator::Equal, x, y)?;
    let low = over(
        alloc,
        &mut store,
        Operator::Less,
        number(alloc, 1),
        number(alloc, 2),
    )?;
    let x = variable(alloc, b"x")?;
    let other = over(alloc, &mut store, Operator::Equal, x, number(alloc, 1))?;
    let made = store.len() as u64;
    assert!(rt; turned.id < made && equal.id < made && low.id < made && other.id < made);
    let mut facts = Facts::new(alloc);
    facts.push(&store, turned)?;
    assert!(rt; known(alloc, &store, &facts, equal)?);
    assert!(rt; known(alloc, &store, &facts, low)?);
    assert!(rt; !known(alloc, &store, &facts, other)?);
    facts.push(&store, equal)?;
    facts.truncate(1);
    assert!(rt; facts.len() == 1 && facts.as_slice()[0].id == turned.id);
    assert!(rt; known(alloc, &store, &facts, equal)?);
    facts.truncate(0);
    assert!(rt; !known(alloc, &store, &facts, equal)?);
    assert!(rt; !is_reflexive(&store, equal));
    assert!(rt; !same(&store, equal, turned));
    Ok(())
}
