//! Scripts of the small form from their texts.

ghost use Rattle.std.specs.Prelude.{◌-◌, ◌^◌, ◌<◌, length, IfOk, IfErr};
ghost use Rattle.gv_base.specs.declared.answers.Code.{Code as AnyCode};
ghost use Rattle.gv_base.specs.declared.answers.Place.{Place as AnyPlace};
ghost use Rattle.gv_text.specs.Answers.{IsReadAs, IsRefusedAs};
ghost use Rattle.gv_smallscript.specs.SmallScript.{IsSmallScript};
ghost use Rattle.gv_smallscript.specs.declared.forms.SmallScript.{SmallScript as AnyScript};
ghost use Rattle.gv_smallread.specs.Reading.{IsOther, IsSmallScriptFor, IsRefusedFor, IsRefusal};

use gv_atomic::Spec;
use gv_base::Refusal;
use gv_lang::Program;
use gv_scripts::read_script;
use gv_small::not_of_form;
use gv_smallscript::{SmallFault, SmallScript, small_script};
use std::alloc::Global;

// The blocks of a text of the small form, or the refusal of all of it.
fn small_or_refused(alloc: Global, text: &[u8]) -> Result<SmallScript, Refusal>
    requires { length text.now < 2 ^ 32 - 1 }
    ensures found { IfOk result (λ script. IsSmallScript text.now script) }
    ensures other { IfErr result (IsOther text.now) }
{
    match small_script(alloc, text) {
        Ok(script) => Ok(script),
        Err(SmallFault::NoMemory) => Err(Refusal::NoMemory),
        Err(SmallFault::Other) => Err(not_of_form()),
    }
}

// What a text is read as, or its refusal.
fn read_or_refused(
    alloc: Global,
    text: &[u8],
    spec: &Spec,
    program: &Program,
) -> Result<SmallScript, Refusal>
    requires { length text.now < 2 ^ 32 - 1 }
    ensures found { IfOk result (IsSmallScriptFor text.now spec.now program.now) }
    ensures refused { IfErr result (IsRefusal text.now spec.now program.now) }
{
    match read_script(alloc, text, spec, program) {
        Ok(_) => small_or_refused(alloc, text),
        Err(refusal) => Err(refusal),
    }
}

/// The blocks of a script of the small form, in the order of its text of fewer than 2^32 - 1 bytes, which is read whole for a
/// specification and a program. A text that `read_script` refuses is refused so; of another form is `NotInProfile`, at 1:1; and
/// `NoMemory` comes where memory runs out. It takes time and room linear in the text, the specification and the program. This project's own.
pub fn read_small_script(
    alloc: Global,
    text: &[u8],
    spec: &Spec,
    program: &Program,
) -> Result<SmallScript, Refusal>
    requires { length text.now < 2 ^ 32 - 1 }

    // What is read is so, and what is so is read.
    ensures found { IfOk result (IsSmallScriptFor text.now spec.now program.now) }
    ensures only { (script : AnyScript) → IsSmallScriptFor text.now spec.now program.now script → IsReadAs script result }

    // A refusal is so, and where a text is refused so, it is.
    ensures refused { IfErr result (IsRefusal text.now spec.now program.now) }
    ensures fault { (place : AnyPlace) (code : AnyCode) → IsRefusedFor text.now spec.now program.now place code → IsRefusedAs place code result }
{
    read_or_refused(alloc, text, spec, program)
}
