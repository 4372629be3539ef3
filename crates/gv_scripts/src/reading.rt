//! Scripts from their texts.

ghost use Rattle.std.specs.Prelude.{◌-◌, ◌^◌, ◌<◌, ℕ, length, IfOk, IfErr};
ghost use Rattle.gv_base.specs.Places.{place_at};
ghost use Rattle.gv_base.specs.declared.answers.Code.{Code as AnyCode};
ghost use Rattle.gv_text.specs.Answers.{IsReadSo, IsRefusedAs, Refuses};
ghost use Rattle.gv_typing.specs.Placing.{IsCause};
ghost use Rattle.gv_scriptsyntax.specs.declared.tree.Script.{Script as Tree};
ghost use Rattle.gv_scriptsyntax.specs.Nodes.{IsTreeOf};
ghost use Rattle.gv_scriptnames.specs.Faults.{HasOutlineFault};
ghost use Rattle.gv_scriptnames.specs.Laws.{IsTyped};
ghost use Rattle.gv_scriptnames.specs.Outlines.{outline_of as outline};
ghost use Rattle.gv_scriptnodes.specs.Places.{IsSomeScript};
ghost use Rattle.gv_scripts.specs.Reading.{IsOf, IsRefused, IsValid, Spells};

use crate::script::Script;
use gv_atomic::Spec;
use gv_base::{NoMemory, Refusal};
use gv_lang::Program;
use gv_lex::lex;
use gv_scriptfaults::first_fault;
use gv_scriptnodes::outline_of;
use gv_scriptparse::parse_script;
use gv_scriptplaces::places_of;
use gv_scriptsyntax::Node;
use gv_text::refusal_at;
use gv_typing::TermFault;
use std::alloc::Global;

// The script of the nodes of a tree, or the first fault of the tree.
fn script_of(
    alloc: Global,
    text: &[u8],
    spec: &Spec,
    program: &Program,
    nodes: Vec<Node>,
) -> Result<Script, TermFault>
    requires short { length text.now < 2 ^ 32 - 1 }
    requires tree { IsSomeScript text.now nodes.items }
    ensures read { IfOk result (λ s. (tree : Tree) → IsTreeOf text.now nodes.items tree → IsOf text.now tree s) }
    ensures typed { IfOk result (λ s. (tree : Tree) → IsTreeOf text.now nodes.items tree → IsTyped text.now spec.now program.now tree) }
    ensures cause { IfErr result (λ e. (tree : Tree) → IsTreeOf text.now nodes.items tree
        → IsCause (HasOutlineFault text.now spec.now program.now (outline tree)) e) }
{
    let outline = outline_of(alloc, text, &nodes)?;
    let first = first_fault(alloc, text, spec, program, &outline)?;
    if let Some(fault) = first {
        return Err(TermFault::from(fault));
    }
    let places = places_of(alloc, text, &nodes)?;
    Ok(Script {
        nodes,
        outline,
        places,
    })
}

// The script that a text spells, or its refusal.
fn read_or_refused(
    alloc: Global,
    text: &[u8],
    spec: &Spec,
    program: &Program,
) -> Result<Script, Refusal>
    requires { length text.now < 2 ^ 32 - 1 }
    ensures read { IfOk result (IsValid text.now spec.now program.now) }
    ensures refused { IfErr result (Refuses text.now (IsRefused text.now spec.now program.now)) }
{
    let tokens = lex(alloc, text)?;
    let tree = parse_script(alloc, text, &tokens)?;
    match script_of(alloc, text, spec, program, tree.nodes) {
        Ok(script) => Ok(script),
        Err(TermFault::NoMemory) => Err(Refusal::NoMemory),
        Err(TermFault::At { start, code }) => Err(refusal_at(text, start, code)),
    }
}

/// The script that a text of fewer than 2^32 - 1 bytes spells, typed for a specification and a program, with the places of its
/// commands, or the text's refusal. It takes room linear in the text, the specification and the program, and time that grows besides
/// with the logarithm of the text's lines.
///
/// A refusal is that of the first stage that refuses: the characters, as `lex` tells; the grammar, as `parse_script` tells; then, at
/// the first place, by the lower number at one place:
/// - `Undeclared` at a name that stands for nothing there: no earlier predicate, no cell of the program, no field, operation or book,
///   no procedure, no local of a cut's procedure, no cut beside a `to`;
/// - `Twice` at a declared name that is a word or a constant, or that an earlier one of its kind or scope bears;
/// - `WrongType` at the name behind `root` where its one parameter is no reference;
/// - `WrongCount` at a name, or at the word `token`, with another number of terms, results or parameters than is wanted;
/// - `TooMany` at a number of cells that is not from 1 to 65,536, and at one that is no point of its procedure.
///
/// `NoMemory` comes where memory runs out. This project's own.
pub fn read_script(
    alloc: Global,
    text: &[u8],
    spec: &Spec,
    program: &Program,
) -> Result<Script, Refusal>
    requires { length text.now < 2 ^ 32 - 1 }

    // What is read is the script of a tree that the text spells, and a tree that the text spells is read.
    ensures read { IfOk result (IsValid text.now spec.now program.now) }
    ensures only { (tree : Tree) → Spells text.now spec.now program.now tree → IsReadSo (IsOf text.now tree) result }

    // A refusal stands at the first fault, and where there is one, the text is refused there.
    ensures refused { IfErr result (Refuses text.now (IsRefused text.now spec.now program.now)) }
    ensures fault { (at : ℕ) (code : AnyCode) → IsRefused text.now spec.now program.now at code
        → IsRefusedAs (place_at text.now at) code result }
{
    read_or_refused(alloc, text, spec, program)
}
