//! The replicated disk: eight blocks, which two operations read and write.

use super::{allows, constant, field, forgotten, operation, params, replied, term, variable};
use gv_base::{List, Name, NoMemory};
use gv_spec::{Assign, Field, Op, Spec, State, init, make_spec};
use gv_terms::{MakeFault, Operator, Sort, Term, TermStore, Value};
use std::alloc::Global;
use std::process::Abort;
use std::test::Fail;

// The terms that both operations speak of: the blocks, the address, and that it is below 8.
#[derive(Clone, Copy)]
struct Terms {
    d: Term,
    a: Term,
    below: Term,
}

fn disk(alloc: Global) -> Result<Spec, Fail> {
    let (fields, ops, store) = parts(alloc)?;
    Ok(make_spec(
        alloc,
        2,
        8,
        fields,
        ops,
        List::new(alloc),
        List::new(alloc),
        store,
    )?)
}

fn parts(alloc: Global) -> Result<(List<Field>, List<Op>, TermStore), MakeFault> {
    let mut store = TermStore::new(alloc)?;
    let fields = fields(alloc, &mut store)?;
    let ops = ops(alloc, &mut store)?;
    Ok((fields, ops, store))
}

fn fields(alloc: Global, store: &mut TermStore) -> Result<List<Field>, MakeFault> {
    let zero = constant(alloc, store, Operator::Number(0))?;
    let block = term(alloc, store, Operator::Bytes(4096), &[zero])?;
    let first = term(alloc, store, Operator::Blocks(8), &[block])?;
    let field = field(alloc, b"d", Sort::Blocks, first)?;
    Ok(List::from_vec(vec![in alloc; field]?))
}

fn ops(alloc: Global, store: &mut TermStore) -> Result<List<Op>, MakeFault> {
    let shared = shared(alloc, store)?;
    let read = read(alloc, store, shared)?;
    let write = write(alloc, store, shared)?;
    Ok(List::from_vec(vec![in alloc; read, write]?))
}

fn shared(alloc: Global, store: &mut TermStore) -> Result<Terms, MakeFault> {
    let d = variable(alloc, store, b"d", Sort::Blocks)?;
    let a = variable(alloc, store, b"a", Sort::Word)?;
    let eight = constant(alloc, store, Operator::Number(8))?;
    let below = term(alloc, store, Operator::Less, &[a, eight])?;
    Ok(Terms { d, a, below })
}

fn read(alloc: Global, store: &mut TermStore, shared: Terms) -> Result<Op, MakeFault> {
    let reply = term(alloc, store, Operator::At, &[shared.d, shared.a])?;
    let params = params(alloc, &[(b"a", Sort::Word)])?;
    let op = operation(alloc, b"Read", params, shared.below, &[], Some(reply))?;
    Ok(op)
}

fn write(alloc: Global, store: &mut TermStore, shared: Terms) -> Result<Op, MakeFault> {
    let v = variable(alloc, store, b"v", Sort::Bytes)?;
    let whole = is_whole(alloc, store, v)?;
    let allowed = term(alloc, store, Operator::And, &[shared.below, whole])?;
    let changed = term(alloc, store, Operator::Upd, &[shared.d, shared.a, v])?;
    let params = params(alloc, &[(b"a", Sort::Word), (b"v", Sort::Bytes)])?;
    let body = [Assign {
        field: 0,
        term: changed,
    }];
    let op = operation(alloc, b"Write", params, allowed, &body, None)?;
    Ok(op)
}

// That a block has 4,096 bytes.
fn is_whole(alloc: Global, store: &mut TermStore, v: Term) -> Result<Term, MakeFault> {
    let length = term(alloc, store, Operator::Len, &[v])?;
    let size = constant(alloc, store, Operator::Number(4096))?;
    term(alloc, store, Operator::Equal, &[length, size])
}

// A block whose bytes are all this one.
fn block(alloc: Global, byte: u8) -> Result<Value, NoMemory> {
    Ok(Value::Bytes(Name::from_slice(alloc, &[byte; 4096])?))
}

// Reads the block with a number, whose bytes are all to be this one.
fn check_read(
    rt: &impl Abort,
    alloc: Global,
    spec: &Spec,
    s: &State,
    (place, byte): (u64, u8),
) -> Result<(), NoMemory> {
    let want = block(alloc, byte)?;
    let args = [Value::Word(place)];
    replied(rt, alloc, spec, s, (0, &args), &want)?;
    Ok(())
}

// The arguments of a call that writes.
fn arguments(alloc: Global, place: u64, bytes: &[u8]) -> Result<Vec<Value>, NoMemory> {
    let bytes = Value::Bytes(Name::from_slice(alloc, bytes)?);
    Ok(vec![in alloc; Value::Word(place), bytes]?)
}

// The state after a block of these bytes was written, to which there is no reply.
fn written(
    rt: &impl Abort,
    alloc: Global,
    spec: &Spec,
    s: &State,
    (place, byte): (u64, u8),
) -> Result<State, NoMemory> {
    let args = arguments(alloc, place, &[byte; 4096])?;
    replied(rt, alloc, spec, s, (1, args.as_slice()), &Value::Unit)
}

fn check_reads(rt: &impl Abort, alloc: Global, spec: &Spec) -> Result<(), NoMemory> {
    let start = init(alloc, spec)?;
    check_read(rt, alloc, spec, &start, (3, 0))?;
    let after = written(rt, alloc, spec, &start, (3, 7))?;
    check_read(rt, alloc, spec, &after, (3, 7))?;
    check_read(rt, alloc, spec, &after, (2, 0))?;
    let kept = forgotten(rt, alloc, spec, &after)?;
    check_read(rt, alloc, spec, &kept, (3, 7))
}

#[test]
fn disk_reads_what_was_written(rt: HostRuntime) -> Result<(), Fail> {
    let alloc = rt.alloc();
    let spec = disk(alloc)?;
    Ok(check_reads(&rt, alloc, &spec)?)
}

fn check_places(rt: &impl Abort, alloc: Global, spec: &Spec) -> Result<(), NoMemory> {
    for (place, want) in [(7, true), (8, false)] {
        let args = [Value::Word(place)];
        assert_eq!(rt; allows(rt, alloc, spec, 0, &args)?, want, "at {place}");
    }
    Ok(())
}

#[test]
fn disk_reads_below_eight(rt: HostRuntime) -> Result<(), Fail> {
    let alloc = rt.alloc();
    let spec = disk(alloc)?;
    Ok(check_places(&rt, alloc, &spec)?)
}

// Whether a block of these bytes may be written.
fn allows_write(
    rt: &impl Abort,
    alloc: Global,
    spec: &Spec,
    place: u64,
    bytes: &[u8],
) -> Result<bool, NoMemory> {
    let args = arguments(alloc, place, bytes)?;
    allows(rt, alloc, spec, 1, args.as_slice())
}

fn check_blocks(rt: &impl Abort, alloc: Global, spec: &Spec) -> Result<(), NoMemory> {
    let table: [(u64, &[u8], bool); 3] = [
        (7, &[7; 4096], true),
        (7, b"short", false),
        (8, &[0; 4096], false),
    ];
    for (place, bytes, want) in table {
        assert_eq!(rt;
            allows_write(rt, alloc, spec, place, bytes)?,
            want,
            "at {place}"
        );
    }
    Ok(())
}

#[test]
fn disk_writes_whole_blocks_below_eight(rt: HostRuntime) -> Result<(), Fail> {
    let alloc = rt.alloc();
    let spec = disk(alloc)?;
    Ok(check_blocks(&rt, alloc, &spec)?)
}
