//! Worked specifications, made of terms.

ghost use Rattle.std.specs.Prelude.{◌<◌, length, IsTrue};
ghost use Rattle.gv_terms.specs.Store.{AreIn};

mod adder;
mod disk;
mod exchange;

use gv_base::{List, Name, NoMemory};
use gv_spec::{Assign, Field, Op, Spec, State, Var, apply, crashed, meets_where};
use gv_terms::{Head, MakeFault, Node, Operator, Sort, Term, TermStore, Value};
use std::alloc::Global;
use std::process::Abort;

// Whether the store has made all of these.
fn holds(store: &TermStore, parts: &[Term]) -> bool
    ensures { IsTrue result → AreIn store.now parts.now }
{
    for part in parts {
        if part.id >= store.len() as u64 {
            return false;
        }
    }
    true
}

fn variable(
    alloc: Global,
    store: &mut TermStore,
    name: &[u8],
    sort: Sort,
) -> Result<Term, MakeFault> {
    let head = Head::Variable {
        name: Name::from_slice(alloc, name)?,
        sort,
    };
    let node = Node {
        head,
        parts: List::new(alloc),
    };
    store.make(alloc, &node)
}

fn term(
    alloc: Global,
    store: &mut TermStore,
    operator: Operator,
    parts: &[Term],
) -> Result<Term, MakeFault> {
    let parts = Vec::from_slice(alloc, parts)?;
    if !holds(store, parts.as_slice()) {
        return Err(MakeFault::WrongSort);
    }
    let node = Node {
        head: Head::Apply(operator),
        parts: List::from_vec(parts),
    };
    store.make(alloc, &node)
}

// A term without parts.
fn constant(alloc: Global, store: &mut TermStore, operator: Operator) -> Result<Term, MakeFault> {
    term(alloc, store, operator, &[])
}

fn field(alloc: Global, name: &[u8], sort: Sort, first: Term) -> Result<Field, NoMemory> {
    Ok(Field {
        name: Name::from_slice(alloc, name)?,
        sort,
        leased: false,
        first,
    })
}

// The parameters with these names and sorts.
fn params(alloc: Global, all: &[(&[u8], Sort)]) -> Result<List<Var>, NoMemory> {
    let mut params = Vec::new(alloc);
    for (name, sort) in all {
        params.push(Var {
            name: Name::from_slice(alloc, *name)?,
            sort: *sort,
        })?;
    }
    Ok(List::from_vec(params))
}

fn operation(
    alloc: Global,
    name: &[u8],
    params: List<Var>,
    allowed: Term,
    body: &[Assign],
    reply: Option<Term>,
) -> Result<Op, NoMemory> {
    let name = Name::from_slice(alloc, name)?;
    let body = List::from_vec(Vec::from_slice(alloc, body)?);
    Ok(Op {
        name,
        params,
        allowed,
        picks: List::new(alloc),
        body,
        reply,
    })
}

// Whether the specification has an operation with this number.
fn has_op(spec: &Spec, op: u32) -> bool
    ensures { IsTrue result → op < length spec.now.ops }
{
    (op as usize) < spec.ops.len()
}

// The state and the reply after an operation of the specification.
fn after(
    rt: &impl Abort,
    alloc: Global,
    spec: &Spec,
    s: &State,
    op: u32,
    args: &[Value],
) -> Result<(State, Value), NoMemory> {
    assert!(rt; has_op(spec, op));
    let Some(after) = apply(alloc, spec, s, op, args, &[])? else {
        panic!(rt; "operation {op} chooses");
    };
    Ok(after)
}

// The state after a crash that picks nothing.
fn forgotten(rt: &impl Abort, alloc: Global, spec: &Spec, s: &State) -> Result<State, NoMemory> {
    let Some(after) = crashed(alloc, spec, s, &[])? else {
        panic!(rt; "the crash picks");
    };
    Ok(after)
}

// The state after an operation, whose reply is to be this.
fn replied(
    rt: &impl Abort,
    alloc: Global,
    spec: &Spec,
    s: &State,
    call: (u32, &[Value]),
    want: &Value,
) -> Result<State, NoMemory> {
    let (next, reply) = after(rt, alloc, spec, s, call.0, call.1)?;
    assert!(rt; reply.same(want), "reply of operation {}", call.0);
    Ok(next)
}

fn allows(
    rt: &impl Abort,
    alloc: Global,
    spec: &Spec,
    op: u32,
    args: &[Value],
) -> Result<bool, NoMemory> {
    assert!(rt; has_op(spec, op));
    meets_where(alloc, spec, op, args)
}

fn check_field(rt: &impl Abort, s: &State, place: usize, want: u64) {
    let right = match s.values.get(place) {
        Some(Value::Word(n)) => *n == want,
        _ => false,
    };
    assert!(rt; right, "field {place}");
}
