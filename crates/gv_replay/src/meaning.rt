//! What lines mean under a specification.

ghost use Rattle.std.specs.Prelude.{◌≡◌, ◌∷◌, [], ◌++◌, Ok, ◌≤◌, ◌^◌, IfOk, IfErr, OnOk};
ghost use Rattle.gv_replay.specs.Meaning as meaning;
ghost use Rattle.gv_replay.specs.OperationTable.{IsTableOf};
ghost use Rattle.gv_text.specs.Stops.{StopsAs};

use crate::argument::{Argument, Number, Written};
use crate::line::{CallLine, Line};
use crate::operations::Operations;
use gv_atomic::Spec;
use gv_base::{Code, List, Name, NoMemory};
use gv_spec::{Entry, Move};
use gv_terms::{Sort, Value, Var, copy_list};
use gv_text::Stop;
use std::alloc::Global;

// How often a byte stands in a literal at most.
const LARGEST_COUNT: u64 = 16_777_216;

/// The move that a line tells, none of `end`; or why it is refused.
pub fn move_in(
    alloc: Global,
    spec: &Spec,
    table: &Operations,
    line: &Line,
) -> Result<Option<Move>, Stop>
    requires { IsTableOf spec.now.ops table.now }
    ensures ok { IfOk result (λ m. meaning.move_in spec.now line.now ≡ Ok m) }
    ensures err { IfErr result (StopsAs (meaning.move_in spec.now line.now)) }
{
    match line {
        Line::Call(call) => {
            let entry = call_entry(alloc, spec, table, call)?;
            Ok(Some(Move::Other(entry)))
        }
        Line::Answer { number, reply } => {
            let entry = answer_entry(alloc, *number, reply)?;
            Ok(Some(Move::Other(entry)))
        }
        Line::Act { number, choices } => {
            let number = narrow(*number)?;
            let choices = copy_list(alloc, choices)?;
            Ok(Some(Move::Act { number, choices }))
        }
        Line::Crash { .. } => Ok(Some(Move::Other(Entry::Crash))),
        Line::Boot { choices } => {
            let choices = copy_list(alloc, choices)?;
            Ok(Some(Move::Boot { choices }))
        }
        Line::End | Line::Step { .. } | Line::Fail { .. } | Line::Grow { .. } => Ok(None),
    }
}

/// A number below a bound of 2^32 at most.
pub fn bounded(bound: u64, number: Number) -> Result<u32, Stop>
    requires { bound ≤ 2 ^ 32 }
    ensures ok { IfOk result (λ n. meaning.bounded bound number ≡ Ok n) }
    ensures err { IfErr result (StopsAs (meaning.bounded bound number)) }
{
    if number.value < bound {
        Ok(number.value as u32)
    } else {
        Err(Stop::At(number.at, Code::TooMany))
    }
}

/// The number of a call or of a thread, which is below 2^32.
pub fn narrow(number: Number) -> Result<u32, Stop>
    ensures ok { IfOk result (λ n. meaning.narrow number ≡ Ok n) }
    ensures err { IfErr result (StopsAs (meaning.narrow number)) }
{
    bounded(1 << 32, number)
}

// How often a byte stands in a literal.
fn count_of(number: Number) -> Result<usize, Stop>
    ensures ok { IfOk result (λ n. meaning.count_of number ≡ Ok n) }
    ensures err { IfErr result (StopsAs (meaning.count_of number)) }
{
    if number.value <= LARGEST_COUNT {
        Ok(number.value as usize)
    } else {
        Err(Stop::At(number.at, Code::TooMany))
    }
}

// What is written, as a value.
fn value_of(alloc: Global, written: &Written) -> Result<Value, Stop>
    ensures ok { IfOk result (λ v. meaning.value_of written.now ≡ Ok v) }
    ensures err { IfErr result (StopsAs (meaning.value_of written.now)) }
{
    match written {
        Written::Word(n) => Ok(Value::Word(*n)),
        Written::Bool(b) => Ok(Value::Bool(*b)),
        Written::Bytes(bytes) => Ok(Value::Bytes(bytes.copy(alloc)?)),
        Written::Repeated { byte, count } => repeated(alloc, *byte, *count),
    }
}

fn repeated(alloc: Global, byte: u8, count: Number) -> Result<Value, Stop>
    ensures ok { IfOk result (λ v. meaning.repeated byte count ≡ Ok v) }
    ensures err { IfErr result (StopsAs (meaning.repeated byte count)) }
{
    let count = count_of(count)?;
    let bytes = vec![in alloc; byte; count]?;
    Ok(Value::Bytes(Name::from_vec(alloc, bytes)?))
}

fn has_sort(written: &Written, sort: Sort) -> bool
    ensures { result ≡ meaning.has_sort written.now sort }
{
    match written {
        Written::Word(_) => sort == Sort::Word,
        Written::Bool(_) => sort == Sort::Bool,
        Written::Bytes(_) => sort == Sort::Bytes,
        Written::Repeated { .. } => sort == Sort::Bytes,
    }
}

// The value for a parameter of a sort.
fn value_for(alloc: Global, sort: Sort, argument: &Argument) -> Result<Value, Stop>
    ensures ok { IfOk result (λ v. meaning.value_for sort argument.now ≡ Ok v) }
    ensures err { IfErr result (StopsAs (meaning.value_for sort argument.now)) }
{
    if has_sort(&argument.written, sort) {
        value_of(alloc, &argument.written)
    } else {
        Err(Stop::At(argument.at, Code::WrongType))
    }
}

fn add(values: &mut Vec<Value>, value: Value) -> Result<(), NoMemory>
    ensures { OnOk result (values.new.items ≡ values.old.items ++ value ∷ []) }
{
    values.push(value)?;
    Ok(())
}

// The values for parameters, of which there are as many as arguments.
fn values_for(alloc: Global, params: &[Var], args: &[Argument]) -> Result<List<Value>, Stop>
    ensures ok { IfOk result (λ vs. meaning.values_for params.now args.now ≡ Ok vs) }
    ensures err { IfErr result (StopsAs (meaning.values_for params.now args.now)) }
{
    let mut values = Vec::with_capacity(alloc, args.len())?;
    let mut params = params;
    let mut args = args;
    while let [param, others @ ..] = params {
        let [argument, rest @ ..] = args else {
            return Ok(List::from_vec(values));
        };
        let value = value_for(alloc, param.sort, argument)?;
        add(&mut values, value)?;
        params = others;
        args = rest;
    }
    Ok(List::from_vec(values))
}

/// Whether a call has as many arguments as its operation has parameters, where there is such an operation.
pub fn arity(spec: &Spec, table: &Operations, call: &CallLine) -> Result<(), Stop>
    requires { IsTableOf spec.now.ops table.now }
    ensures ok { IfOk result (λ x. meaning.arity spec.now call.now ≡ Ok x) }
    ensures err { IfErr result (StopsAs (meaning.arity spec.now call.now)) }
{
    match table.number_of(&call.op) {
        Some(op) if params_of(spec, op).len() != call.args.len() => {
            Err(Stop::At(call.at, Code::WrongCount))
        }
        _ => Ok(()),
    }
}

/// The operation of a call and its arguments.
pub fn called(
    alloc: Global,
    spec: &Spec,
    table: &Operations,
    call: &CallLine,
) -> Result<(u32, List<Value>), Stop>
    requires { IsTableOf spec.now.ops table.now }
    ensures ok { IfOk result (λ o. meaning.called spec.now call.now ≡ Ok o) }
    ensures err { IfErr result (StopsAs (meaning.called spec.now call.now)) }
{
    match table.number_of(&call.op) {
        Some(op) => Ok((
            op,
            values_for(alloc, params_of(spec, op), call.args.as_slice())?,
        )),
        None => Err(Stop::At(call.op_at, Code::Undeclared)),
    }
}

// The number of a call, which is 0 where it has none.
fn call_number(number: Option<Number>) -> Result<u32, Stop>
    ensures ok { IfOk result (λ n. meaning.call_number number ≡ Ok n) }
    ensures err { IfErr result (StopsAs (meaning.call_number number)) }
{
    match number {
        Some(number) => narrow(number),
        None => Ok(0),
    }
}

// A call. Its number of arguments is tested first, as the word `call` stands before all of its parts.
fn call_entry(
    alloc: Global,
    spec: &Spec,
    table: &Operations,
    call: &CallLine,
) -> Result<Entry, Stop>
    requires { IsTableOf spec.now.ops table.now }
    ensures ok { IfOk result (λ e. meaning.call_entry spec.now call.now ≡ Ok e) }
    ensures err { IfErr result (StopsAs (meaning.call_entry spec.now call.now)) }
{
    arity(spec, table, call)?;
    let number = call_number(call.number)?;
    let (op, args) = called(alloc, spec, table, call)?;
    Ok(Entry::Call { number, op, args })
}

fn params_of(spec: &Spec, op: u32) -> &[Var]
    ensures { result.now ≡ meaning.params_at spec.now op }
{
    match spec.ops.get(op as usize) {
        Some(operation) => operation.params.as_slice(),
        None => &[],
    }
}

fn reply_of(alloc: Global, reply: &Option<Argument>) -> Result<Value, Stop>
    ensures ok { IfOk result (λ v. meaning.reply_of reply.now ≡ Ok v) }
    ensures err { IfErr result (StopsAs (meaning.reply_of reply.now)) }
{
    match reply {
        Some(argument) => value_of(alloc, &argument.written),
        None => Ok(Value::Unit),
    }
}

// An answer. Its reply may have any sort.
fn answer_entry(alloc: Global, number: Number, reply: &Option<Argument>) -> Result<Entry, Stop>
    ensures ok { IfOk result (λ e. meaning.answer_entry number reply.now ≡ Ok e) }
    ensures err { IfErr result (StopsAs (meaning.answer_entry number reply.now)) }
{
    let number = narrow(number)?;
    let reply = reply_of(alloc, reply)?;
    Ok(Entry::Answer { number, reply })
}
