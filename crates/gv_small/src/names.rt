//! Words that are names, and names that differ.

ghost use Rattle.std.specs.Prelude.{◌≡◌, ◌∷◌, true, false, Some, map, IfOk, OnOk, IfErr, IfSome, IfNone};
ghost use Rattle.gv_small.specs.Forms as form;
ghost use Rattle.gv_small.specs.Reading as reading;

use crate::cursor::is_among;
use crate::reading::not_of_form;
use gv_base::{List, Name, NoMemory, Refusal, SmallOp};
use indexmap::IndexSet;
use std::alloc::Global;

/// The words that Go and its profile keep for themselves.
const RESERVED_WORDS: [&[u8]; 35] = [
    b"break",
    b"case",
    b"chan",
    b"const",
    b"continue",
    b"default",
    b"defer",
    b"else",
    b"fallthrough",
    b"for",
    b"func",
    b"go",
    b"goto",
    b"if",
    b"import",
    b"interface",
    b"map",
    b"package",
    b"range",
    b"return",
    b"select",
    b"struct",
    b"switch",
    b"type",
    b"var",
    b"uint64",
    b"byte",
    b"bool",
    b"true",
    b"false",
    b"nil",
    b"make",
    b"new",
    b"len",
    b"delete",
];

/// Whether a byte is a decimal digit.
pub fn is_digit(byte: u8) -> bool
    ensures { result ≡ form.is_digit byte }
{
    byte.is_ascii_digit()
}

/// Whether a word begins with a digit.
pub fn begins_with_digit(word: &[u8]) -> bool
    ensures { result ≡ form.begins_with_digit word.now }
{
    match word {
        [first, ..] => is_digit(*first),
        [] => false,
    }
}

fn begins_with_capital(word: &[u8]) -> bool
    ensures { result ≡ form.begins_with_capital word.now }
{
    match word {
        [first, ..] => first.is_ascii_uppercase(),
        [] => false,
    }
}

fn is_reserved(word: &[u8]) -> bool
    ensures { result ≡ form.is_reserved word.now }
{
    is_among(&RESERVED_WORDS, word)
}

/// Whether a word may be a name: it begins with no digit and is not reserved.
pub fn is_name(word: &[u8]) -> bool
    ensures { result ≡ form.is_name word.now }
{
    !begins_with_digit(word) && !is_reserved(word)
}

/// Whether a word may name an operation: a name that begins with a capital letter and is not
/// `Recover`.
pub fn is_operation_name(word: &[u8]) -> bool
    ensures { result ≡ form.is_operation_name word.now }
{
    is_name(word) && begins_with_capital(word) && word != b"Recover".as_slice()
}

/// The names as a set in their order, or None where one stands twice.
pub fn distinct(alloc: Global, names: &[Name]) -> Result<Option<IndexSet<Name>>, NoMemory>
    ensures some { IfOk result (λ set. IfSome set (λ s. (s.keys ≡ names.now) × (form.is_distinct names.now ≡ true))) }
    ensures none { IfOk result (λ set. IfNone set (form.is_distinct names.now ≡ false)) }
{
    let mut set = IndexSet::new(alloc);
    for name in names {
        let added = set.insert(name.copy(alloc)?)?;
        if !added {
            return Ok(None);
        }
    }
    Ok(Some(set))
}

// The names as a set in their order. Refused where one stands twice.
fn distinct_or_refused(alloc: Global, names: &[Name]) -> Result<IndexSet<Name>, Refusal>
    ensures ok { IfOk result (λ set. reading.distinct_names names.now ≡ Some set.keys) }
    ensures keys { IfOk result (λ set. set.keys ≡ names.now) }
    ensures err { IfErr result (reading.Refuses (reading.distinct_names names.now)) }
{
    match distinct(alloc, names)? {
        Some(set) => Ok(set),
        None => Err(not_of_form()),
    }
}

/// The parameters as a set in their order. Refused where two of the receiver and the parameters
/// have one name.
pub fn distinct_from(
    alloc: Global,
    receiver: &[u8],
    params: &[Name],
) -> Result<IndexSet<Name>, Refusal>
    ensures ok { IfOk result (λ set. form.is_distinct (receiver.now ∷ params.now) ≡ true) }
    ensures keys { IfOk result (λ set. set.keys ≡ params.now) }
    ensures err { IfErr result (reading.Refuses (reading.distinct_names (receiver.now ∷ params.now))) }
{
    let set = distinct_or_refused(alloc, params)?;
    let name = Name::from_slice(alloc, receiver)?;
    if set.contains(&name) {
        Err(not_of_form())
    } else {
        Ok(set)
    }
}

fn operation_names(alloc: Global, ops: &[SmallOp]) -> Result<List<Name>, NoMemory>
    ensures { IfOk result (λ names. names ≡ map (λ op. op.name) ops.now) }
{
    let mut names = List::new(alloc);
    for op in ops {
        names.push(op.name.copy(alloc)?)?;
    }
    Ok(names)
}

/// Refused where two operations have one name.
pub fn distinct_operations(alloc: Global, ops: &[SmallOp]) -> Result<(), Refusal>
    ensures ok { OnOk result (form.is_distinct (map (λ op. op.name) ops.now) ≡ true) }
    ensures err { IfErr result (reading.Refuses (reading.distinct_names (map (λ op. op.name) ops.now))) }
{
    let names = operation_names(alloc, ops)?;
    let _set = distinct_or_refused(alloc, names.as_slice())?;
    Ok(())
}
