//! Makes large specifications and values large terms, for bench/costs to time: spec_bench WHAT COUNT.
//!
//! `operations` makes a specification of that many operations; `nested` one whose operation is allowed under that many `!`;
//! `shared` one whose operation is allowed under a conjunction as deep, both sides of which are one term; `puts` values that
//! many `put`s into one map; `kept` as many, each of whose maps is read once all are made.
#![tactic(auto)]

ghost use Rattle.std.specs.Prelude.{◌<◌, IsTrue, length};
ghost use Rattle.gv_terms.specs.Store.{AreIn};

use anyhow::{Result, bail};
use gv_atomic::{Op, Spec, make_spec};
use gv_base::{List, Name};
use gv_terms::{Env, Head, Node, Operator, Term, TermStore, Value, eval};
use std::alloc::Global;
use std::env;

// Whether the store has made this.
fn has(store: &TermStore, term: Term) -> bool
    ensures { IsTrue result → term.id < length store.now }
{
    term.id < store.len() as u64
}

// Whether the store has made all of these.
fn holds(store: &TermStore, parts: &[Term]) -> bool
    ensures { IsTrue result → AreIn store.now parts.now }
{
    for part in parts {
        if part.id >= store.len() as u64 {
            return false;
        }
    }
    true
}

fn term(alloc: Global, store: &mut TermStore, operator: Operator, parts: &[Term]) -> Result<Term> {
    let parts = Vec::from_slice(alloc, parts)?;
    if !holds(store, parts.as_slice()) {
        bail!("a term of another store");
    }
    let parts = List::from_vec(parts);
    let head = Head::Apply(operator);
    Ok(store.make(alloc, &Node { head, parts })?)
}

// An operation without parameters that does nothing, and may be called where the term holds.
fn operation(alloc: Global, name: &[u8], allowed: Term) -> Result<Op> {
    Ok(Op {
        name: Name::from_slice(alloc, name)?,
        params: List::new(alloc),
        allowed,
        picks: List::new(alloc),
        body: List::new(alloc),
        reply: None,
    })
}

fn spec_of(alloc: Global, ops: List<Op>, store: TermStore) -> Result<Spec> {
    let (fields, picks, crash) = (List::new(alloc), List::new(alloc), List::new(alloc));
    Ok(make_spec(alloc, 0, 0, fields, ops, picks, crash, store)?)
}

fn operations(alloc: Global, count: usize) -> Result<Spec> {
    let mut store = TermStore::new(alloc)?;
    let mut ops = List::new(alloc);
    for number in 0..count {
        let name = format!(in alloc; "operation{number}")?;
        let allowed = term(alloc, &mut store, Operator::True, &[])?;
        ops.push(operation(alloc, name.as_bytes(), allowed)?)?;
    }
    spec_of(alloc, ops, store)
}

fn nested(alloc: Global, count: usize) -> Result<Spec> {
    let mut store = TermStore::new(alloc)?;
    let mut allowed = term(alloc, &mut store, Operator::True, &[])?;
    for _ in 0..count {
        allowed = term(alloc, &mut store, Operator::Not, &[allowed])?;
    }
    let ops = List::from_vec(vec![in alloc; operation(alloc, b"only", allowed)?]?);
    spec_of(alloc, ops, store)
}

fn shared(alloc: Global, count: usize) -> Result<Spec> {
    let mut store = TermStore::new(alloc)?;
    let mut allowed = term(alloc, &mut store, Operator::True, &[])?;
    for _ in 0..count {
        allowed = term(alloc, &mut store, Operator::And, &[allowed, allowed])?;
    }
    let ops = List::from_vec(vec![in alloc; operation(alloc, b"only", allowed)?]?);
    spec_of(alloc, ops, store)
}

// The value of a term without variables.
fn value_of(alloc: Global, store: &TermStore, term: Term) -> Result<Value> {
    if !has(store, term) {
        bail!("a term of another store");
    }
    let bindings = List::new(alloc);
    Ok(eval(alloc, store, term, &Env { bindings })?)
}

// Whether a map into which so many keys are put has the key 0.
fn puts(alloc: Global, count: usize) -> Result<Value> {
    let mut store = TermStore::new(alloc)?;
    let mut map = term(alloc, &mut store, Operator::MapWW, &[])?;
    for number in 0..count {
        let key = term(alloc, &mut store, Operator::Number(number as u64), &[])?;
        map = term(alloc, &mut store, Operator::Put, &[map, key, key])?;
    }
    let key = term(alloc, &mut store, Operator::Number(0), &[])?;
    let held = term(alloc, &mut store, Operator::Has, &[map, key])?;
    value_of(alloc, &store, held)
}

// Whether each of so many maps, into which one key more is put each, has the key 0.
fn kept(alloc: Global, count: usize) -> Result<Value> {
    let mut store = TermStore::new(alloc)?;
    let mut maps = Vec::new(alloc);
    let mut map = term(alloc, &mut store, Operator::MapWW, &[])?;
    for number in 0..count {
        let key = term(alloc, &mut store, Operator::Number(number as u64), &[])?;
        map = term(alloc, &mut store, Operator::Put, &[map, key, key])?;
        maps.push(map)?;
    }
    let key = term(alloc, &mut store, Operator::Number(0), &[])?;
    let mut all = term(alloc, &mut store, Operator::True, &[])?;
    for map in maps {
        let held = term(alloc, &mut store, Operator::Has, &[map, key])?;
        all = term(alloc, &mut store, Operator::And, &[all, held])?;
    }
    value_of(alloc, &store, all)
}

fn main(rt: HostRuntime) -> Result<()> {
    let alloc = rt.alloc();
    let mut words = env::args(&rt)?.skip(1);
    let (Some(what), Some(count)) = (words.next(), words.next()) else {
        bail!("spec_bench operations|nested|shared|puts|kept COUNT");
    };
    let count = count.as_str().parse::<usize>()?;
    match what.as_str() {
        "operations" => println!(&rt; "{} operations", operations(alloc, count)?.ops.len())?,
        "nested" => println!(&rt; "{} operations", nested(alloc, count)?.ops.len())?,
        "shared" => println!(&rt; "{} operations", shared(alloc, count)?.ops.len())?,
        "puts" => println!(&rt; "{:?}", puts(alloc, count)?)?,
        "kept" => println!(&rt; "{:?}", kept(alloc, count)?)?,
        _ => bail!("spec_bench operations|nested|shared|puts|kept COUNT"),
    }
    Ok(())
}
