//! The text of a script of the small form.

ghost use Rattle.std.specs.Prelude.{◌≡◌, ◌-◌, ◌^◌, ◌<◌, [], length, Some, IfOk, OnOk, IfErr, codes};
ghost use Rattle.gv_small.specs.Cursor.{tokens_left};
ghost use Rattle.gv_small.specs.Reading.{Refuses, IsReadAs, IsStartRefusal};
ghost use Rattle.gv_top.specs.declared.small_script.SmallScript.{SmallScript as ScriptForm};
ghost use Rattle.gv_top.specs.Reading as reading;
ghost use Rattle.gv_top.specs.SmallScript.{IsSmallScript};

use gv_base::{List, Name, Place, Refusal};
use gv_small::{Cursor, SmallToken, Taken, expect, is_at_end, not_of_form, operation_name};
use std::alloc::Global;

/// The predicates, the initial fold and the recovery that each script of the small form begins with.
const DECLARATIONS: &[u8] =
    b"pred Crash() { case () { } } pred H(p: Ref) { case () { } } crash Crash; root H; init { fold Crash() 1 (); } recover { step as (p); share { }; open; boot; fold H(p) 1 (); close; }";

/// A script of the small form: a block for each operation, in the order of its text.
/// This project's own.
#[derive(Debug, Drop)]
pub struct SmallScript {
    pub ops: List<SmallBlock>,
}

/// A block of the small form: the operation's name, and the place of its command `step`.
/// This project's own.
#[derive(Debug, Drop)]
pub struct SmallBlock {
    pub name: Name,
    pub step: Place,
}

// The place of the word `step`, which comes next.
fn step_place(cursor: &mut Cursor) -> Result<Place, Refusal>
    ensures ok { IfOk result (λ place. reading.place_at (codes "step") (tokens_left cursor.old) ≡ Some (place, tokens_left cursor.new)) }
    ensures err { IfErr result (Refuses (reading.place_at (codes "step") (tokens_left cursor.old))) }
{
    match cursor.next() {
        Some(
            Taken {
                token: SmallToken::Word(word),
                place,
            },
        ) if word == b"step".as_slice() => Ok(place),
        _ => Err(not_of_form()),
    }
}

// The block that comes next.
fn block(alloc: Global, cursor: &mut Cursor) -> Result<SmallBlock, Refusal>
    ensures ok { IfOk result (λ b. reading.block (tokens_left cursor.old) ≡ Some (b, tokens_left cursor.new)) }
    ensures err { IfErr result (Refuses (reading.block (tokens_left cursor.old))) }
{
    expect(cursor, b"op")?;
    let name = operation_name(cursor)?;
    expect(cursor, b"{ open; sim me; close;")?;
    let step = step_place(cursor)?;
    expect(cursor, b"; }")?;
    Ok(SmallBlock {
        name: Name::from_slice(alloc, name)?,
        step,
    })
}

// The blocks up to the end of the text.
fn blocks(alloc: Global, cursor: &mut Cursor) -> Result<List<SmallBlock>, Refusal>
    ensures ok { IfOk result (λ ops. reading.blocks (tokens_left cursor.old) ≡ Some (ops, [])) }
    ensures err { IfErr result (Refuses (reading.blocks (tokens_left cursor.old))) }
{
    let mut ops = List::new(alloc);
    while !is_at_end(cursor) {
        let block = block(alloc, cursor)?;
        ops.push(block)?;
    }
    Ok(ops)
}

// The blocks of the script.
fn script_ops(alloc: Global, cursor: &mut Cursor) -> Result<List<SmallBlock>, Refusal>
    ensures ok { IfOk result (λ ops. reading.script_ops (tokens_left cursor.old) ≡ Some ops) }
    ensures err { IfErr result (Refuses (reading.script_ops (tokens_left cursor.old))) }
{
    expect(cursor, DECLARATIONS)?;
    let ops = blocks(alloc, cursor)?;
    Ok(ops)
}

/// The blocks of a script of the small form, in the order of its text. Another text is refused
/// `NotInProfile` at its first place. This project's own.
pub fn read_small_script(alloc: Global, text: &[u8]) -> Result<SmallScript, Refusal>
    requires { length text.now < 2 ^ 32 - 1 }
    // What is read is so, and what is so is read; the one refusal stands at the first place.
    ensures found { IfOk result (λ script. IsSmallScript text.now script) }
    ensures only { (script : ScriptForm) → IsSmallScript text.now script → IsReadAs script result }
    ensures fault { IfErr result IsStartRefusal }
{
    let mut cursor = Cursor::new(text, false);
    let ops = script_ops(alloc, &mut cursor)?;
    Ok(SmallScript { ops })
}
