//! The small form of a package.

ghost use Rattle.std.specs.Prelude.{◌≡◌, ◌-◌, ◌^◌, ◌<◌, [], length, map, Some, IfOk, OnOk, IfErr};
ghost use Rattle.gv_base.specs.declared.small.Small.{Small as SmallForm};
ghost use Rattle.gv_small.specs.Cursor.{kinds_left};
ghost use Rattle.gv_small.specs.Reading.{Refuses, IsReadAs, IsStartRefusal};
ghost use Rattle.gv_gotree.specs.Reading as reading;
ghost use Rattle.gv_gotree.specs.SmallPackage.{IsSmallPackage};

use crate::method::method;
use gv_base::{List, Refusal, Small, SmallOp};
use gv_small::{Cursor, distinct_operations, expect, expect_word, is_at_end, name, pass_semicolon};
use std::alloc::Global;

// The end of a package's head, behind the result type of `Recover`.
fn package_end(cursor: &mut Cursor, type_name: &[u8]) -> Result<(), Refusal>
    ensures ok { OnOk result (reading.package_end type_name.now (kinds_left cursor.old) ≡ Some (kinds_left cursor.new)) }
    ensures err { IfErr result (Refuses (reading.package_end type_name.now (kinds_left cursor.old))) }
{
    expect_word(cursor, type_name)?;
    expect(cursor, b"{ return &")?;
    expect_word(cursor, type_name)?;
    expect(cursor, b"{ }")?;
    pass_semicolon(cursor);
    expect(cursor, b"} ;")?;
    Ok(())
}

// The name of the package's struct, up to the methods.
fn package_head<'a>(cursor: &mut Cursor<'a>) -> Result<&'a [u8], Refusal>
    ensures ok { IfOk result (λ t. reading.package_head (kinds_left cursor.old) ≡ Some (t.now, kinds_left cursor.new)) }
    ensures err { IfErr result (Refuses (reading.package_head (kinds_left cursor.old))) }
{
    expect(cursor, b"package")?;
    name(cursor)?;
    expect(cursor, b"; type")?;
    let type_name = name(cursor)?;
    expect(cursor, b"struct { } ; func Recover ( ) *")?;
    package_end(cursor, type_name)?;
    Ok(type_name)
}

// The methods up to the end of the text.
fn methods(alloc: Global, cursor: &mut Cursor, type_name: &[u8]) -> Result<List<SmallOp>, Refusal>
    ensures ok { IfOk result (λ ops. reading.methods type_name.now (kinds_left cursor.old) ≡ Some (ops, [])) }
    ensures err { IfErr result (Refuses (reading.methods type_name.now (kinds_left cursor.old))) }
{
    let mut ops = List::new(alloc);
    while !is_at_end(cursor) {
        let op = method(alloc, cursor, type_name)?;
        ops.push(op)?;
    }
    Ok(ops)
}

// The operations of the package.
fn package_ops(alloc: Global, cursor: &mut Cursor) -> Result<List<SmallOp>, Refusal>
    ensures ok { IfOk result (λ ops. reading.package_ops (kinds_left cursor.old) ≡ Some ops) }
    ensures err { IfErr result (Refuses (reading.package_ops (kinds_left cursor.old))) }
{
    let type_name = package_head(cursor)?;
    let ops = methods(alloc, cursor, type_name)?;
    distinct_operations(alloc, ops.as_slice())?;
    Ok(ops)
}

/// The operations of a package of the small form, in the order of its text: a struct without
/// fields, a `Recover` that makes it, and methods of 64-bit parameters that return a Sum of them.
/// Another text is refused `NotInProfile` at its first place. This project's own.
pub fn read_small_package(alloc: Global, text: &[u8]) -> Result<Small, Refusal>
    requires { length text.now < 2 ^ 32 - 1 }
    // What is read is so, and what is so is read; the one refusal stands at the first place.
    ensures found { IfOk result (λ small. IsSmallPackage text.now small) }
    ensures only { (small : SmallForm) → IsSmallPackage text.now small → IsReadAs small result }
    ensures fault { IfErr result IsStartRefusal }
{
    let mut cursor = Cursor::new(text, true);
    let ops = package_ops(alloc, &mut cursor)?;
    Ok(Small { ops })
}
