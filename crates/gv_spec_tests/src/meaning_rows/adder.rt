//! The adder: one operation, which replies the sum.

use super::{allows, constant, operation, params, replied, term, variable};
use gv_base::{List, NoMemory};
use gv_spec::{Op, Spec, State, init, make_spec, takes};
use gv_terms::{MakeFault, Operator, Sort, TermStore, Value};
use std::alloc::Global;
use std::process::Abort;
use std::test::Fail;

// The specification, whose operation has this condition.
fn adder(alloc: Global, allowed: Operator) -> Result<Spec, Fail> {
    let (ops, store) = parts(alloc, allowed)?;
    let fields = List::new(alloc);
    Ok(make_spec(
        alloc,
        0,
        0,
        fields,
        ops,
        List::new(alloc),
        List::new(alloc),
        store,
    )?)
}

fn parts(alloc: Global, allowed: Operator) -> Result<(List<Op>, TermStore), MakeFault> {
    let mut store = TermStore::new(alloc)?;
    let op = add(alloc, &mut store, allowed)?;
    let ops = List::from_vec(vec![in alloc; op]?);
    Ok((ops, store))
}

fn add(alloc: Global, store: &mut TermStore, allowed: Operator) -> Result<Op, MakeFault> {
    let a = variable(alloc, store, b"a", Sort::Word)?;
    let b = variable(alloc, store, b"b", Sort::Word)?;
    let sum = term(alloc, store, Operator::Plus, &[a, b])?;
    let allowed = constant(alloc, store, allowed)?;
    let params = params(alloc, &[(b"a", Sort::Word), (b"b", Sort::Word)])?;
    let op = operation(alloc, b"Add", params, allowed, &[], Some(sum))?;
    Ok(op)
}

fn check_sum(
    rt: &impl Abort,
    alloc: Global,
    spec: &Spec,
    s: &State,
    (a, b, want): (u64, u64, u64),
) -> Result<(), NoMemory> {
    let args = [Value::Word(a), Value::Word(b)];
    assert!(rt; allows(rt, alloc, spec, 0, &args)?, "{a} and {b}");
    let next = replied(rt, alloc, spec, s, (0, &args), &Value::Word(want))?;
    assert!(rt; next.values.is_empty());
    Ok(())
}

fn check_sums(rt: &impl Abort, alloc: Global, spec: &Spec) -> Result<(), NoMemory> {
    let start = init(alloc, spec)?;
    assert!(rt; start.values.is_empty());
    for row in [(1, 2, 3), (u64::MAX, 1, 0), (0, 0, 0)] {
        check_sum(rt, alloc, spec, &start, row)?;
    }
    Ok(())
}

#[test]
fn adder_replies_sums(rt: HostRuntime) -> Result<(), Fail> {
    let alloc = rt.alloc();
    let spec = adder(alloc, Operator::True)?;
    Ok(check_sums(&rt, alloc, &spec)?)
}

fn check_never(rt: &impl Abort, alloc: Global, spec: &Spec) -> Result<(), NoMemory> {
    let args = [Value::Word(1), Value::Word(2)];
    assert!(rt; !allows(rt, alloc, spec, 0, &args)?);
    Ok(())
}

#[test]
fn adder_may_never_be_called(rt: HostRuntime) -> Result<(), Fail> {
    let alloc = rt.alloc();
    let spec = adder(alloc, Operator::False)?;
    Ok(check_never(&rt, alloc, &spec)?)
}

// Two words are arguments of the operation with number 0, and of no other.
fn check_takes(rt: &impl Abort, spec: &Spec) {
    let words = [Value::Word(1), Value::Word(2)];
    assert!(rt; takes(spec, 0, &words));
    assert!(rt; !takes(spec, 1, &words));
    assert!(rt; !takes(spec, 0, &words[..1]));
    assert!(rt; !takes(spec, 0, &[]));
    let mixed = [Value::Word(1), Value::Bool(true)];
    assert!(rt; !takes(spec, 0, &mixed));
    let three = [Value::Word(1), Value::Word(2), Value::Word(3)];
    assert!(rt; !takes(spec, 0, &three));
}

#[test]
fn adder_takes_two_words(rt: HostRuntime) -> Result<(), Fail> {
    let spec = adder(rt.alloc(), Operator::True)?;
    check_takes(&rt, &spec);
    Ok(())
}
