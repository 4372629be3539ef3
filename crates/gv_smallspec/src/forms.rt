//! The operations of a specification of the small form.

ghost use Rattle.std.specs.Prelude.{◌≡◌, ◌<◌, [], length, map, slice_get, true, false, Some, IfOk, IfErr, IfSome, IfNone, List as Seq};
ghost use Rattle.gv_base.specs.declared.small.Small.{Small as AnySmall};
ghost use Rattle.gv_base.specs.declared.small.SmallOp.{SmallOp as AnyOp};
ghost use Rattle.gv_atomic.specs.Specification.{IsOpWithin};
ghost use Rattle.gv_terms.specs.Store.{tree_at};
ghost use Rattle.gv_terms.specs.Trees.{branches_of};
ghost use Rattle.gv_smallspec.specs.SmallSpec as form;
ghost use Rattle.gv_smallspec.specs.SmallSpec.{IsSmallOf};
ghost use Rattle.gv_smallspec.specs.declared.forms.SmallFault.TheVariants as fault;

use gv_atomic::{Op, Spec};
use gv_base::{List, Name, NoMemory, Part, Small, SmallOp, Turn};
use gv_small::Sum;
use gv_terms::{Head, Operator, Sort, Term, TermStore, Var};
use std::alloc::{AllocError, AllocFailed, Global};
use thiserror::Error;

/// Why a specification gives no operations of the small form. This project's own.
#[derive(Debug, Drop, Error)]
pub enum SmallFault {
    #[error("out of memory")]
    NoMemory,
    #[error("a specification is not of the small form")]
    Other,
}

impl From<NoMemory> for SmallFault {
    ghost from_gives = { λ _ e. e ≡ fault.NoMemory };

    fn from(_e: NoMemory) -> SmallFault {
        SmallFault::NoMemory
    }
}

// The place of the first variable with a name. A place that u32 can't hold is of more variables than memory has room for.
fn place_of(params: &[Var], name: &Name) -> Result<Option<u32>, NoMemory>
    ensures { IfOk result (λ o. o ≡ form.place_of params.now name.now) }
{
    for (at, var) in params.iter().enumerate() {
        if var.name == *name {
            let at = u32::try_from(at).map_err(|_| NoMemory)?;
            return Ok(Some(at));
        }
    }
    Ok(None)
}

// The Sum that a variable is.
fn variable(alloc: Global, params: &[Var], name: &Name, sort: Sort) -> Result<Option<Sum>, NoMemory>
    ensures { IfOk result (λ o. o ≡ form.sum_of_variable params.now name.now sort) }
{
    if sort != Sort::Word {
        return Ok(None);
    }
    match place_of(params, name)? {
        Some(at) => Ok(Some(Sum {
            first: Part::Param(at),
            rest: List::new(alloc),
        })),
        None => Ok(None),
    }
}

// The parameter or the number that a term is.
fn part(
    alloc: Global,
    store: &TermStore,
    params: &[Var],
    term: Term,
) -> Result<Option<Part>, NoMemory>
    requires { term.id < length store.now }
    ensures { IfOk result (λ o. o ≡ form.part_in (form.sum_of params.now (tree_at store.now term.id))) }
{
    match store.head_of(term) {
        Head::Variable { name, sort } => match variable(alloc, params, name, *sort)? {
            Some(sum) => Ok(Some(sum.first)),
            None => Ok(None),
        },
        Head::Apply(Operator::Number(value)) => Ok(Some(Part::Number(*value))),
        Head::Apply(_) => Ok(None),
    }
}

// A Sum with one more turn, where it may have turns.
fn with_turn(sum: Sum, minus: bool, part: Part) -> Result<Option<Sum>, NoMemory>
    ensures { IfOk result (λ o. o ≡ form.with_turn sum minus part) }
{
    let Sum { first, mut rest } = sum;
    match first {
        Part::Param(at) => {
            rest.push(Turn { minus, part })?;
            Ok(Some(Sum {
                first: Part::Param(at),
                rest,
            }))
        }
        Part::Number(_) => Ok(None),
    }
}

// The Sum that the two parts of a term make, of which the second one is added or taken away.
#[cycle(sums)]
fn turned(
    alloc: Global,
    store: &TermStore,
    params: &[Var],
    minus: bool,
    term: Term,
) -> Result<Option<Sum>, NoMemory>
    requires { term.id < length store.now }
    ensures { IfOk result (λ o. o ≡ form.turned_by minus (map (form.sum_of params.now) (branches_of (tree_at store.now term.id)))) }
{
    let [left, right] = store.parts_of(term) else {
        return Ok(None);
    };
    let Some(part) = part(alloc, store, params, *right)? else {
        return Ok(None);
    };
    let Some(sum) = sum_of(alloc, store, params, *left)? else {
        return Ok(None);
    };
    with_turn(sum, minus, part)
}

// The Sum that a term is. The call goes as deep as the term is nested on the left.
#[cycle(sums)]
fn sum_of(
    alloc: Global,
    store: &TermStore,
    params: &[Var],
    term: Term,
) -> Result<Option<Sum>, NoMemory>
    requires { term.id < length store.now }
    ensures { IfOk result (λ o. o ≡ form.sum_of params.now (tree_at store.now term.id)) }
{
    match store.head_of(term) {
        Head::Variable { name, sort } => variable(alloc, params, name, *sort),
        Head::Apply(Operator::Number(value)) => Ok(Some(Sum {
            first: Part::Number(*value),
            rest: List::new(alloc),
        })),
        Head::Apply(Operator::Plus) => turned(alloc, store, params, false, term),
        Head::Apply(Operator::Minus) => turned(alloc, store, params, true, term),
        Head::Apply(_) => Ok(None),
    }
}

// The names of parameters, where all are words.
fn word_names(alloc: Global, params: &[Var]) -> Result<Option<List<Name>>, NoMemory>
    ensures { IfOk result (λ o. o ≡ form.word_names params.now) }
{
    let mut params = params;
    let mut names = List::new(alloc);
    while let [param, others @ ..] = params {
        if param.sort != Sort::Word {
            return Ok(None);
        }
        names.push(param.name.copy(alloc)?)?;
        params = others;
    }
    Ok(Some(names))
}

// Whether all arguments are allowed, nothing is picked and nothing assigned.
fn only_replies(store: &TermStore, op: &Op) -> bool
    requires { op.now.allowed.id < length store.now }
    ensures { result ≡ form.only_replies store.now op.now }
{
    match store.head_of(op.allowed) {
        Head::Apply(Operator::True) => op.picks.len() == 0 && op.body.len() == 0,
        _ => false,
    }
}

// The Sum that a reply is.
fn reply_sum(
    alloc: Global,
    store: &TermStore,
    params: &[Var],
    reply: Option<Term>,
) -> Result<Option<Sum>, NoMemory>
    requires { IfSome reply (λ t. t.id < length store.now) }
    ensures { IfOk result (λ o. o ≡ form.reply_sum store.now params.now reply) }
{
    match reply {
        Some(term) => sum_of(alloc, store, params, term),
        None => Ok(None),
    }
}

// The small operation that an operation is.
fn small_op(alloc: Global, store: &TermStore, op: &Op) -> Result<Option<SmallOp>, NoMemory>
    requires { IsOpWithin store.now op.now }
    ensures { IfOk result (λ o. o ≡ form.small_op store.now op.now) }
{
    if !only_replies(store, op) {
        return Ok(None);
    }
    let params = op.params.as_slice();
    let Some(names) = word_names(alloc, params)? else {
        return Ok(None);
    };
    let Some(sum) = reply_sum(alloc, store, params, op.reply)? else {
        return Ok(None);
    };
    let Sum { first, rest } = sum;
    Ok(Some(SmallOp {
        name: op.name.copy(alloc)?,
        params: names,
        first,
        rest,
    }))
}

// The operation with a number.
fn operation(spec: &Spec, number: usize) -> &Op
    requires { number < length spec.now.ops }
    ensures is { slice_get spec.now.ops number ≡ Some result.now }
    ensures within { IsOpWithin spec.now.store result.now }
{
    &spec.ops.as_slice()[number]
}

// The small operations of a specification, where all are small.
fn small_ops(alloc: Global, spec: &Spec) -> Result<Option<List<SmallOp>>, NoMemory>
    ensures found { IfOk result (λ o. IfSome o (λ ops. map (form.small_op spec.now.store) spec.now.ops ≡ map Some ops)) }
    ensures none { IfOk result (λ o. IfNone o ((ops : Seq AnyOp) → map (form.small_op spec.now.store) spec.now.ops ≡ map Some ops → ⊥)) }
{
    let mut ops = List::new(alloc);
    for number in 0..spec.ops.len() {
        let Some(op) = small_op(alloc, &spec.store, operation(spec, number))? else {
            return Ok(None);
        };
        ops.push(op)?;
    }
    Ok(Some(ops))
}

// Whether there are no disks and no fields, and a crash does nothing.
fn has_no_state(spec: &Spec) -> bool
    ensures yes { result ≡ true → (spec.now.disks ≡ 0) × (spec.now.fields ≡ []) × (spec.now.crash_picks ≡ []) × (spec.now.crash ≡ []) }
    ensures no { result ≡ false → (small : AnySmall) → IsSmallOf spec.now small → ⊥ }
{
    spec.disks == 0
        && spec.fields.is_empty()
        && spec.crash_picks.is_empty()
        && spec.crash.is_empty()
}

/// The operations of a specification of the small form: no disk, no field, operations on words that reply a Sum of
/// their parameters, and a crash that changes nothing. `Other` exactly where it is not of this form. This project's own.
pub fn small_spec(alloc: Global, spec: &Spec) -> Result<Small, SmallFault>
    ensures found { IfOk result (λ small. IsSmallOf spec.now small) }
    ensures other { IfErr result (λ e. e ≡ fault.Other → (small : AnySmall) → IsSmallOf spec.now small → ⊥) }
{
    if !has_no_state(spec) {
        return Err(SmallFault::Other);
    }
    match small_ops(alloc, spec)? {
        Some(ops) => Ok(Small { ops }),
        None => Err(SmallFault::Other),
    }
}
