//! What a specification means: its first fields, its operations, and its crash.

ghost use Rattle.std.specs.Prelude.{◌≡◌, ◌<◌, ◌++◌, length, slice_get, slice_set, is_some, option_map, IfOk, IfSome, IsTrue, OnOk};
ghost use Rattle.std.specs.Bool.{OnTrue};
ghost use Rattle.std.specs.List.{All};
ghost use Rattle.gv_atomic.specs.Choices.{fits, limit_of, picks_bound, are_allowed};
ghost use Rattle.gv_atomic.specs.Specification.{assigned, fields_bound, args_bound, op_before, first_fields, crash_chooses, crash_fields, reply_value};
ghost use Rattle.gv_atomic.specs.Specification.{IsOpWithin, ArePicksWithin};
ghost use Rattle.gv_terms.specs.Values.{sort_of_value};
ghost use Rattle.gv_spec.specs.Atomic.{are_of, are_args, atomic_of, field_vars, reply_sort, EachOfOp, EachOfCrash};
ghost use Rattle.gv_spec.specs.Meaning.{allows, chooses, fields_after, reply_of};

use gv_atomic::{Assign, Field, Op, Pick, Spec, State, Var};
use gv_base::{List, NoMemory};
use gv_terms::{Binding, Env, Term, TermStore, Value, eval};
use std::alloc::Global;

/// The first fields, each of its field's sort.
pub fn init(alloc: Global, spec: &Spec) -> Result<State, NoMemory>
    ensures value { IfOk result (λ s. s.values ≡ first_fields spec.now) }
    ensures atomic { IfOk result (λ s. s.values ≡ (atomic_of spec.now).first_fields) }
    ensures sorts { IfOk result (λ s. IsTrue (are_of (field_vars spec.now) s.values)) }
{
    let env = Env {
        bindings: List::new(alloc),
    };
    let mut values = Vec::new(alloc);
    for field in spec.fields.as_slice() {
        values.push(eval(alloc, &spec.store, field.first, &env)?)?;
    }
    Ok(State {
        values: List::from_vec(values),
    })
}

/// Whether there is such an operation and these are arguments of its parameters' sorts.
pub fn takes(spec: &Spec, op: u32, args: &[Value]) -> bool
    ensures { result ≡ are_args spec.now op args.now }
{
    match spec.ops.as_slice().get(op as usize) {
        None => false,
        Some(operation) => are_of(operation.params.as_slice(), args),
    }
}

/// Whether an operation may be called with these arguments, where they are of its parameters' sorts.
pub fn meets_where(alloc: Global, spec: &Spec, op: u32, args: &[Value]) -> Result<bool, NoMemory>
    requires { op < length spec.now.ops }
    ensures value { IfOk result (λ b. b ≡ allows spec.now op args.now) }
    ensures atomic { IsTrue (are_args spec.now op args.now) → IfOk result (λ b. b ≡ (atomic_of spec.now).allows op args.now) }
{
    let operation = operation(spec, op);
    let mut bindings = Vec::new(alloc);
    bind_args(alloc, &mut bindings, operation.params.as_slice(), args)?;
    let env = Env {
        bindings: List::from_vec(bindings),
    };
    let value = eval(alloc, &spec.store, operation.allowed, &env)?;
    Ok(value.truth())
}

/// The fields after an operation with these arguments and choices, and its reply, which is `Unit` where it
/// has none; None exactly where its picks don't allow the choices. Each field that it assigns has the value
/// of its own assignment's term, which speaks of the old fields, the arguments and the choices. Fields of
/// their sorts stay so, and the reply has its term's sort.
pub fn apply(
    alloc: Global,
    spec: &Spec,
    s: &State,
    op: u32,
    args: &[Value],
    choices: &[u64],
) -> Result<Option<(State, Value)>, NoMemory>
    requires { op < length spec.now.ops }
    ensures allowed { IfOk result (λ o. is_some o ≡ chooses spec.now op args.now choices.now s.now.values) }
    ensures fields { IfOk result (λ o. IfSome o (λ r. r.0.values ≡ fields_after spec.now op args.now choices.now s.now.values)) }
    ensures reply { IfOk result (λ o. IfSome o (λ r. r.1 ≡ reply_of spec.now op args.now choices.now s.now.values)) }
    ensures atomic { IfOk result (λ o. (atomic_of spec.now).applied op args.now choices.now s.now.values ≡ option_map (λ r. (r.0.values, r.1)) o) }
    ensures each { IfOk result (λ o. IfSome o (λ r. EachOfOp spec.now op args.now choices.now s.now.values r.0.values)) }
    ensures sorts { IsTrue (are_of (field_vars spec.now) s.now.values)
        → IfOk result (λ o. IfSome o (λ r. IsTrue (are_of (field_vars spec.now) r.0.values))) }
    ensures reply_sort { IfOk result (λ o. IfSome o (λ r. sort_of_value r.1 ≡ reply_sort spec.now op)) }
{
    let operation = operation(spec, op);
    let mut env = op_before(alloc, spec, s, operation, args)?;
    if !choose(
        alloc,
        &spec.store,
        &mut env,
        operation.picks.as_slice(),
        choices,
    )? {
        return Ok(None);
    }
    let after = assign(alloc, &spec.store, operation.body.as_slice(), &env, s)?;
    let reply = value_or_unit(alloc, &spec.store, operation.reply, &env)?;
    Ok(Some((after, reply)))
}

/// The fields after a crash with these choices and the recovery from it; None exactly where its picks don't
/// allow the choices. Each field that the crash assigns has the value of its own assignment's term, which
/// speaks of the old fields and the choices. Fields of their sorts stay so.
pub fn crashed(
    alloc: Global,
    spec: &Spec,
    s: &State,
    choices: &[u64],
) -> Result<Option<State>, NoMemory>
    ensures allowed { IfOk result (λ o. is_some o ≡ crash_chooses spec.now choices.now s.now.values) }
    ensures value { IfOk result (λ o. IfSome o (λ r. r.values ≡ crash_fields spec.now choices.now s.now.values)) }
    ensures atomic { IfOk result (λ o. (atomic_of spec.now).crashed choices.now s.now.values ≡ option_map (λ r. r.values) o) }
    ensures each { IfOk result (λ o. IfSome o (λ r. EachOfCrash spec.now choices.now s.now.values r.values)) }
    ensures sorts { IsTrue (are_of (field_vars spec.now) s.now.values) → IfOk result (λ o. IfSome o (λ r. IsTrue (are_of (field_vars spec.now) r.values))) }
{
    let mut env = crash_before(alloc, spec, s)?;
    let (picks, body) = crash_parts(spec);
    if !choose(alloc, &spec.store, &mut env, picks, choices)? {
        return Ok(None);
    }
    let after = assign(alloc, &spec.store, body, &env, s)?;
    Ok(Some(after))
}

/// What a crash picks and assigns. This project's own.
pub fn crash_parts(spec: &Spec) -> (&[Pick], &[Assign])
    ensures picks { result.0.now ≡ spec.now.crash_picks }
    ensures body { result.1.now ≡ spec.now.crash }
    ensures picks_within { ArePicksWithin spec.now.store result.0.now }
    ensures body_within { All (λ a. a.term.id < length spec.now.store) result.1.now }
{
    (spec.crash_picks.as_slice(), spec.crash.as_slice())
}

/// What stands before the picks of a crash: the fields under their names. This project's own.
pub fn crash_before(alloc: Global, spec: &Spec, s: &State) -> Result<Env, NoMemory>
    ensures { IfOk result (λ e. e.bindings ≡ fields_bound spec.now.fields s.now.values) }
{
    let mut bindings = Vec::new(alloc);
    bind_fields(
        alloc,
        &mut bindings,
        spec.fields.as_slice(),
        s.values.as_slice(),
    )?;
    Ok(Env {
        bindings: List::from_vec(bindings),
    })
}

/// What stands before the picks of an operation: the fields under their names, and then the arguments under
/// the parameters'. This project's own.
pub fn op_before(
    alloc: Global,
    spec: &Spec,
    s: &State,
    operation: &Op,
    args: &[Value],
) -> Result<Env, NoMemory>
    ensures { IfOk result (λ e. e.bindings ≡ op_before spec.now operation.now args.now s.now.values) }
{
    let mut bindings = crash_before(alloc, spec, s)?.bindings.into_vec();
    bind_args(alloc, &mut bindings, operation.params.as_slice(), args)?;
    Ok(Env {
        bindings: List::from_vec(bindings),
    })
}

// Whether a number is below a bound, or 0 where the bound is 0.
fn fits(choice: u64, limit: u64) -> bool
    ensures { result ≡ fits choice limit }
{
    choice < limit || (limit == 0 && choice == 0)
}

// Whether a pick may be this number.
fn may_be(
    alloc: Global,
    store: &TermStore,
    env: &Env,
    pick: &Pick,
    choice: u64,
) -> Result<bool, NoMemory>
    requires { pick.now.bound.id < length store.now }
    ensures { IfOk result (λ b. b ≡ fits choice (limit_of store.now env.now.bindings pick.now)) }
{
    let limit = eval(alloc, store, pick.bound, env)?.word();
    Ok(fits(choice, limit))
}

// Whether picks allow the choices, which are then bound to the picks' names.
fn choose(
    alloc: Global,
    store: &TermStore,
    env: &mut Env,
    picks: &[Pick],
    choices: &[u64],
) -> Result<bool, NoMemory>
    requires { ArePicksWithin store.now picks.now }
    ensures allowed { IfOk result (λ b. b ≡ are_allowed store.now env.old.bindings picks.now choices.now) }
    ensures bound { IfOk result (λ b. OnTrue b (env.new.bindings ≡ env.old.bindings ++ picks_bound picks.now choices.now)) }
{
    let mut picks = picks;
    let mut choices = choices;
    while let [pick, others @ ..] = picks {
        let [choice, rest @ ..] = choices else {
            return Ok(false);
        };
        if !may_be(alloc, store, env, pick, *choice)? {
            return Ok(false);
        }
        env.bindings.push(Binding {
            name: pick.name.copy(alloc)?,
            value: Value::Word(*choice),
        })?;
        picks = others;
        choices = rest;
    }
    Ok(choices.is_empty())
}

// Whether there are as many values as variables, each of its variable's sort.
fn are_of(vars: &[Var], values: &[Value]) -> bool
    ensures { result ≡ are_of vars.now values.now }
{
    let mut vars = vars;
    let mut values = values;
    while let [var, others @ ..] = vars {
        let [value, rest @ ..] = values else {
            return false;
        };
        if !value.has_sort(var.sort) {
            return false;
        }
        vars = others;
        values = rest;
    }
    values.is_empty()
}

// The value of a reply, or `Unit` where there is none.
fn value_or_unit(
    alloc: Global,
    store: &TermStore,
    reply: Option<Term>,
    env: &Env,
) -> Result<Value, NoMemory>
    requires { IfSome reply (λ t. t.id < length store.now) }
    ensures { IfOk result (λ v. v ≡ reply_value store.now env.now reply) }
{
    match reply {
        None => Ok(Value::Unit),
        Some(t) => eval(alloc, store, t, env),
    }
}

// Writes the value at a place, where there is such a place.
fn set_at(values: &mut Vec<Value>, place: u32, value: Value)
    ensures { values.new.items ≡ slice_set values.old.items place value }
{
    let place = place as usize;
    if place < values.len() {
        values[place] = value;
    }
}

/// The operation with a number, from 0. This project's own.
pub fn operation(spec: &Spec, op: u32) -> &Op
    requires { op < length spec.now.ops }
    ensures is { slice_get spec.now.ops op ≡ Some result.now }
    ensures within { IsOpWithin spec.now.store result.now }
{
    &spec.ops.as_slice()[op as usize]
}

// The fields after assignments, whose terms all speak of the one valuation.
#[tactic(auto, using(crate::proofs::Assigned::assigned_take))]
fn assign(
    alloc: Global,
    store: &TermStore,
    body: &[Assign],
    env: &Env,
    s: &State,
) -> Result<State, NoMemory>
    requires { All (λ a. a.term.id < length store.now) body.now }
    ensures { IfOk result (λ r. r.values ≡ assigned store.now env.now body.now s.now.values) }
{
    let mut values = s.copy(alloc)?.values.into_vec();
    for a in body {
        let value = eval(alloc, store, a.term, env)?;
        set_at(&mut values, a.field, value);
    }
    Ok(State {
        values: List::from_vec(values),
    })
}

// Binds the fields' names to their values.
#[tactic(auto, using(crate::proofs::Assigned::bound_none))]
fn bind_fields(
    alloc: Global,
    out: &mut Vec<Binding>,
    fields: &[Field],
    values: &[Value],
) -> Result<(), NoMemory>
    ensures { OnOk result (out.new.items ≡ out.old.items ++ fields_bound fields.now values.now) }
{
    let mut fields = fields;
    let mut values = values;
    while let [field, others @ ..] = fields {
        let [value, rest @ ..] = values else {
            return Ok(());
        };
        out.push(Binding {
            name: field.name.copy(alloc)?,
            value: value.copy(alloc)?,
        })?;
        fields = others;
        values = rest;
    }
    Ok(())
}

// Binds the parameters' names to the arguments.
#[tactic(auto, using(crate::proofs::Assigned::bound_none))]
fn bind_args(
    alloc: Global,
    out: &mut Vec<Binding>,
    params: &[Var],
    args: &[Value],
) -> Result<(), NoMemory>
    ensures { OnOk result (out.new.items ≡ out.old.items ++ args_bound params.now args.now) }
{
    let mut params = params;
    let mut args = args;
    while let [param, others @ ..] = params {
        let [arg, rest @ ..] = args else {
            return Ok(());
        };
        out.push(Binding {
            name: param.name.copy(alloc)?,
            value: arg.copy(alloc)?,
        })?;
        params = others;
        args = rest;
    }
    Ok(())
}
