//! Arguments and replies as texts.

ghost use Rattle.std.specs.Prelude.{◌≡◌, ◌++◌, OnOk};
ghost use Rattle.gv_lines.specs.Lines as lines;
ghost use Rattle.gv_terms.specs.declared.value.Value.TheVariants as value;

use crate::bytes::push_bytes;
use gv_base::NoMemory;
use gv_terms::Value;
use std::alloc::Global;

// Appends a word in decimal with a space before it.
pub(crate) fn push_word(alloc: Global, out: &mut Vec<u8>, n: u64) -> Result<(), NoMemory>
    ensures { OnOk result (out.new.items ≡ out.old.items ++ lines.value_text (value.Word n)) }
{
    let text = format!(in alloc; " {}", n)?;
    out.extend_from_slice(text.as_bytes())?;
    Ok(())
}

fn push_truth(out: &mut Vec<u8>, b: bool) -> Result<(), NoMemory>
    ensures { OnOk result (out.new.items ≡ out.old.items ++ lines.value_text (value.Bool b)) }
{
    let text: &[u8] = if b { b" true" } else { b" false" };
    out.extend_from_slice(text)?;
    Ok(())
}

// Appends an argument or a reply with a space before it, and nothing for a reply of nothing.
pub(crate) fn push_value(alloc: Global, out: &mut Vec<u8>, value: &Value) -> Result<(), NoMemory>
    ensures { OnOk result (out.new.items ≡ out.old.items ++ lines.value_text value.now) }
{
    match value {
        Value::Word(n) => push_word(alloc, out, *n),
        Value::Bool(b) => push_truth(out, *b),
        Value::Bytes(bytes) => {
            out.push(b' ')?;
            push_bytes(alloc, out, bytes.as_slice())
        }
        _ => Ok(()),
    }
}

pub(crate) fn push_values(
    alloc: Global,
    out: &mut Vec<u8>,
    values: &[Value],
) -> Result<(), NoMemory>
    ensures { OnOk result (out.new.items ≡ out.old.items ++ lines.values_text values.now) }
{
    for value in values {
        push_value(alloc, out, value)?;
    }
    Ok(())
}
