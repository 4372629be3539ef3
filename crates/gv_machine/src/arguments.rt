//! The arguments of calls, as threads take them.

ghost use Rattle.std.specs.Prelude.{◌≡◌, true, nat_lt};
ghost use Rattle.gv_lang.specs.Calls as given;
ghost use Rattle.gv_words.specs.Words.{words};
ghost use Rattle.gv_world.specs.Store.{is_within_limit};
ghost use Rattle.gv_machine.specs.Placing as defined;
ghost use Rattle.gv_machine.specs.Placing.{Places, PlacesEach, PlacesAll};

use gv_base::{NoMemory, Val};
use gv_store::{Grow, Store, whole_of};
use gv_terms::Value;
use std::alloc::Global;

// One more than the greatest length of a slice.
const TOO_LONG: u64 = 1 << 63;

// A word is in range.
fn is_word(n: u64) -> bool
    ensures { result ≡ nat_lt n words }
{
    n <= u64::MAX
}

// Whether a buffer can hold these bytes.
fn is_buffer(bytes: &[u8]) -> bool
    ensures { result ≡ given.is_buffer bytes.now }
{
    (bytes.len() as u64) < TOO_LONG
}

// Whether a value may be an argument.
fn is_argument(value: &Value) -> bool
    ensures { result ≡ defined.is_argument value.now }
{
    match value {
        Value::Word(n) => is_word(*n),
        Value::Bool(_) => true,
        Value::Bytes(bytes) => is_buffer(bytes.as_slice()),
        Value::Words(_) | Value::Refs(_) | Value::Blocks(_) | Value::MapWW(_) => false,
        Value::MapWB(_) | Value::Ref(_) | Value::SliceS(_) | Value::Call(_) => false,
        Value::Name(_) | Value::Unit => false,
    }
}

/// Whether each of these may be an argument: a word, a truth value or bytes. This project's own.
pub fn are_arguments(args: &[Value]) -> bool
    ensures { result ≡ defined.are_arguments args.now }
{
    let mut rest = args;
    while let [first, tail @ ..] = rest {
        if !is_argument(first) {
            return false;
        }
        rest = tail;
    }
    true
}

// An argument as a thread takes it, bytes in a fresh buffer.
fn place(alloc: Global, store: &mut Store, arg: &Value) -> Result<Val, Grow>
    requires argument { defined.is_argument arg.now ≡ true }
    requires within { is_within_limit store.old ≡ true }
    ensures { Places (defined.with_argument store.old arg.now) (defined.argument_in store.old arg.now) store.old result store.new }
{
    match arg {
        Value::Word(n) => Ok(Val::Word(*n)),
        Value::Bool(b) => Ok(Val::Bool(*b)),
        Value::Bytes(bytes) => match store.new_buffer(alloc, bytes.as_slice()) {
            Ok(object) => Ok(Val::Slice(whole_of(object, bytes.len() as u64))),
            Err(Grow::TooMany) => Err(Grow::TooMany),
            Err(Grow::NoMemory) => Err(Grow::NoMemory),
        },
        Value::Words(_) | Value::Refs(_) | Value::Blocks(_) | Value::MapWW(_) => Ok(Val::Unit),
        Value::MapWB(_) | Value::Ref(_) | Value::SliceS(_) | Value::Call(_) => Ok(Val::Unit),
        Value::Name(_) | Value::Unit => Ok(Val::Unit),
    }
}

// The arguments behind what is in `values`, one after another. What was placed before a refusal stays.
fn place_each(
    alloc: Global,
    store: &mut Store,
    values: &mut Vec<Val>,
    args: &[Value],
) -> Result<(), Grow>
    requires arguments { defined.are_arguments args.now ≡ true }
    requires within { is_within_limit store.old ≡ true }
    ensures { PlacesEach store.old args.now values.old.items result store.new values.new.items }
{
    let mut rest = args;
    while let [first, tail @ ..] = rest {
        let value = match place(alloc, store, first) {
            Ok(value) => value,
            Err(grow) => return Err(grow),
        };
        values.push(value)?;
        rest = tail;
    }
    Ok(())
}

/// The receiver and the arguments as a thread takes them, bytes in fresh buffers. Where memory or the limit on
/// live cells refuses, the store is as it was. This project's own.
pub fn place_all(
    alloc: Global,
    store: &mut Store,
    receiver: &[Val],
    args: &[Value],
) -> Result<Vec<Val>, Grow>
    requires arguments { defined.are_arguments args.now ≡ true }
    requires within { is_within_limit store.old ≡ true }
    ensures { PlacesAll store.old args.now receiver.now result store.new }
{
    let mut values = Vec::from_slice(alloc, receiver)?;
    let first = store.fresh();
    match place_each(alloc, store, &mut values, args) {
        Ok(()) => Ok(values),
        Err(grow) => {
            store.forget_from(first);
            Err(grow)
        }
    }
}
