//! Two fields that the operation exchanges.

use super::{check_field, constant, field, operation, replied, variable};
use gv_base::{List, NoMemory};
use gv_spec::{Assign, Field, Op, Spec, init, make_spec};
use gv_terms::{MakeFault, Operator, Sort, TermStore, Value};
use std::alloc::Global;
use std::process::Abort;
use std::test::Fail;

fn exchange(alloc: Global) -> Result<Spec, Fail> {
    let (fields, ops, store) = parts(alloc)?;
    Ok(make_spec(
        alloc,
        0,
        0,
        fields,
        ops,
        List::new(alloc),
        List::new(alloc),
        store,
    )?)
}

fn parts(alloc: Global) -> Result<(List<Field>, List<Op>, TermStore), MakeFault> {
    let mut store = TermStore::new(alloc)?;
    let ops = ops(alloc, &mut store)?;
    let fields = fields(alloc, &mut store)?;
    Ok((fields, ops, store))
}

fn ops(alloc: Global, store: &mut TermStore) -> Result<List<Op>, MakeFault> {
    let x = variable(alloc, store, b"x", Sort::Word)?;
    let y = variable(alloc, store, b"y", Sort::Word)?;
    let allowed = constant(alloc, store, Operator::True)?;
    let body = [Assign { field: 0, term: y }, Assign { field: 1, term: x }];
    let op = operation(alloc, b"Swap", List::new(alloc), allowed, &body, Some(x))?;
    Ok(List::from_vec(vec![in alloc; op]?))
}

fn fields(alloc: Global, store: &mut TermStore) -> Result<List<Field>, MakeFault> {
    let one = constant(alloc, store, Operator::Number(1))?;
    let two = constant(alloc, store, Operator::Number(2))?;
    let x = field(alloc, b"x", Sort::Word, one)?;
    let y = field(alloc, b"y", Sort::Word, two)?;
    Ok(List::from_vec(vec![in alloc; x, y]?))
}

fn check_exchange(rt: &impl Abort, alloc: Global, spec: &Spec) -> Result<(), NoMemory> {
    let start = init(alloc, spec)?;
    let next = replied(rt, alloc, spec, &start, (0, &[]), &Value::Word(1))?;
    check_field(rt, &next, 0, 2);
    check_field(rt, &next, 1, 1);
    Ok(())
}

#[test]
fn fields_are_exchanged_at_once(rt: HostRuntime) -> Result<(), Fail> {
    let alloc = rt.alloc();
    let spec = exchange(alloc)?;
    Ok(check_exchange(&rt, alloc, &spec)?)
}
