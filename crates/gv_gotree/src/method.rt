//! A method of the small form.

ghost use Rattle.std.specs.Prelude.{◌≡◌, ◌^◌, ◌<◌, length, Some, IfOk, IfErr};
ghost use Rattle.gv_small.specs.Cursor.{kinds_left};
ghost use Rattle.gv_small.specs.Reading.{Refuses};
ghost use Rattle.gv_gotree.specs.Reading as reading;

use gv_base::{Name, Refusal, SmallOp};
use gv_small::{
    Cursor, Sum, distinct_from, expect, expect_word, name, operation_name, parameters,
    pass_semicolon, read_sum,
};
use indexmap::IndexSet;
use std::alloc::Global;

// What stands before a method's parameters.
#[derive(Clone, Copy)]
struct Head<'a> {
    receiver: &'a [u8],
    name: &'a [u8],
}

// The receiver and the name of a method, up to its parameters.
fn method_head<'a>(cursor: &mut Cursor<'a>, type_name: &[u8]) -> Result<Head<'a>, Refusal>
    ensures ok { IfOk result (λ h. reading.method_head type_name.now (kinds_left cursor.old) ≡ Some ((h.receiver.now, h.name.now), kinds_left cursor.new)) }
    ensures err { IfErr result (Refuses (reading.method_head type_name.now (kinds_left cursor.old))) }
{
    expect(cursor, b"func (")?;
    let receiver = name(cursor)?;
    expect(cursor, b"*")?;
    expect_word(cursor, type_name)?;
    expect(cursor, b")")?;
    let name = operation_name(cursor)?;
    expect(cursor, b"(")?;
    Ok(Head { receiver, name })
}

// The body of a method, behind its parameters.
fn method_body(alloc: Global, cursor: &mut Cursor, params: &IndexSet<Name>) -> Result<Sum, Refusal>
    requires { length params.now.keys < 2 ^ 32 }
    ensures ok { IfOk result (λ s. reading.method_body params.now.keys (kinds_left cursor.old) ≡ Some ((s.first, s.rest), kinds_left cursor.new)) }
    ensures err { IfErr result (Refuses (reading.method_body params.now.keys (kinds_left cursor.old))) }
{
    expect(cursor, b") uint64 { return")?;
    let sum = read_sum(alloc, cursor, params)?;
    pass_semicolon(cursor);
    expect(cursor, b"} ;")?;
    Ok(sum)
}

/// The method of `type_name` that comes next. Refused where none does.
pub fn method(alloc: Global, cursor: &mut Cursor, type_name: &[u8]) -> Result<SmallOp, Refusal>
    ensures ok { IfOk result (λ op. reading.method type_name.now (kinds_left cursor.old) ≡ Some (op, kinds_left cursor.new)) }
    ensures err { IfErr result (Refuses (reading.method type_name.now (kinds_left cursor.old))) }
{
    let head = method_head(cursor, type_name)?;
    let params = parameters(alloc, cursor, b"uint64")?;
    let set = distinct_from(alloc, head.receiver, params.as_slice())?;
    let sum = method_body(alloc, cursor, &set)?;
    Ok(SmallOp {
        name: Name::from_slice(alloc, head.name)?,
        params,
        first: sum.first,
        rest: sum.rest,
    })
}
