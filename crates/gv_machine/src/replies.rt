//! What calls answer.

ghost use Rattle.std.specs.Prelude.{◌≡◌, IfOk};
ghost use Rattle.gv_lang.specs.Calls as given;
ghost use Rattle.gv_runs.specs.Machine.{replied};

use gv_base::{Answer, Name, NoMemory, Reason, Val};
use gv_store::Store;
use gv_terms::Value;
use std::alloc::Global;

// The reply of a call whose first frame returned this one value.
fn reply_of(alloc: Global, store: &Store, v: Val) -> Result<Result<Value, Reason>, NoMemory>
    ensures { IfOk result (λ r. r ≡ replied (given.reply_of store.now v)) }
{
    match v {
        Val::Word(n) => Ok(Ok(Value::Word(n))),
        Val::Bool(b) => Ok(Ok(Value::Bool(b))),
        Val::Slice(slice) => match store.slice_bytes(alloc, slice)? {
            Answer::Next(bytes) => Ok(Ok(Value::Bytes(Name::from_vec(alloc, bytes)?))),
            Answer::Blocked => Ok(Err(Reason::Kind)),
            Answer::Undefined(reason) => Ok(Err(reason)),
        },
        Val::Byte(_) | Val::Ref(_) | Val::Unit => Ok(Err(Reason::Kind)),
    }
}

/// The reply of a call whose first frame returned these values, read in this store: nothing, a word, a truth
/// value, or the bytes of a slice; or the reason why it can't be read. This project's own.
pub fn reply(
    alloc: Global,
    store: &Store,
    values: &[Val],
) -> Result<Result<Value, Reason>, NoMemory>
    ensures { IfOk result (λ r. r ≡ replied (given.reply store.now values.now)) }
{
    match values {
        [] => Ok(Ok(Value::Unit)),
        [v] => reply_of(alloc, store, *v),
        _ => Ok(Err(Reason::Kind)),
    }
}
