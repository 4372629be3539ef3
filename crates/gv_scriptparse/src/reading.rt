//! Reads the tokens of a text as the tree of a script.

ghost use Rattle.std.specs.Prelude.{◌≡◌, ◌<◌, ◌||◌, ◌==◌, ◌-◌, ◌^◌, ℕ, length, IfOk, IfErr};
ghost use Rattle.gv_base.specs.Places.{place_at};
ghost use Rattle.gv_base.specs.declared.answers.Code.{Code as AnyCode};
ghost use Rattle.gv_grammar.specs.Text.{Says};
ghost use Rattle.gv_text.specs.Answers.{IsReadSo, IsRefusedAs, Refuses};
ghost use Rattle.gv_text.specs.Unexpected.{code_by};
ghost use Rattle.gv_scriptsyntax.specs.Language.{IsScript};
ghost use Rattle.gv_scriptsyntax.specs.Nodes.{IsTreeOf};
ghost use Rattle.gv_scriptsyntax.specs.declared.tree.Script.{Script as AnyScript};
ghost use Rattle.gv_scriptparse.specs.Seen.{seen as seen_in};
ghost use Rattle.gv_scriptparse.specs.Reading.{IsRead, IsRefusedAt, IsTree, code_of as code_for};

use crate::seen::seen;
use gv_base::{Code, Refusal, Token};
use gv_grammar::{ReadFault, derive_within};
use gv_scriptsyntax::generated::script_table::{CLASS_LIMIT_NUMBER, NAME_TEXT, script_grammar};
use gv_scriptsyntax::{Node, Tree, nodes_of};
use gv_termread::generated::term_table::CLASS_LARGE_NUMBER;
use gv_termread::{MAX_LEVELS, SeenToken, classes_of, token_at};
use gv_text::refusal_at;
use std::alloc::Global;

// The tree of the tokens of a text, or their first fault.
fn read(alloc: Global, text: &[u8], tokens: &[SeenToken]) -> Result<Vec<Node>, ReadFault>
    ensures read { IfOk result (λ nodes. IsTree text.now tokens.now nodes.items) }
    ensures fault { IfErr result (Says (IsScript text.now 0) MAX_LEVELS tokens.now) }
{
    let classes = classes_of(alloc, tokens)?;
    match derive_within(alloc, &script_grammar(), NAME_TEXT, &classes, 0, MAX_LEVELS) {
        Ok(steps) => Ok(nodes_of(alloc, text, &steps, tokens)?),
        Err(fault) => Err(fault),
    }
}

// The code of a token of this class that the grammar doesn't allow where it stands.
fn code_of(class: u8) -> Code
    ensures { result ≡ code_for class }
{
    if class == CLASS_LARGE_NUMBER || class == CLASS_LIMIT_NUMBER {
        Code::BadNumber
    } else {
        Code::Unexpected
    }
}

// A fault of the grammar as a refusal of the text.
fn refusal_of(text: &[u8], tokens: &[SeenToken], fault: ReadFault) -> Refusal
    requires small { length text.now < 2 ^ 32 - 1 }
    requires says { Says (IsScript text.now 0) MAX_LEVELS tokens.now fault }
    ensures { Refuses text.now (IsRefusedAt text.now tokens.now) result }
{
    match fault {
        ReadFault::NoMemory => Refusal::NoMemory,
        ReadFault::Refused { at } => {
            let token = token_at(tokens, at);
            refusal_at(text, token.start, code_of(token.class))
        }
        ReadFault::TooDeep { at } => {
            let token = token_at(tokens, at);
            refusal_at(text, token.start, Code::TooDeep)
        }
        ReadFault::End => refusal_at(text, text.len() as u32, Code::EndOfText),
    }
}

// The tree of a text, or its refusal.
fn read_or_refused(alloc: Global, text: &[u8], tokens: &[Token]) -> Result<Tree, Refusal>
    requires { length text.now < 2 ^ 32 - 1 }
    ensures read { IfOk result (λ tree. IsTree text.now (seen_in text.now tokens.now) tree.nodes.items) }
    ensures refused { IfErr result (Refuses text.now (IsRefusedAt text.now (seen_in text.now tokens.now))) }
{
    let seen = seen(alloc, text, tokens)?;
    match read(alloc, text, &seen) {
        Ok(nodes) => Ok(Tree { nodes }),
        Err(fault) => Err(refusal_of(text, &seen, fault)),
    }
}

/// The tree of the script that the tokens of a text spell by its grammar, within 200 levels of nesting, or the text's refusal.
/// The tokens are those that `lex` of gv_lex gives for the text, of fewer than 2^32 - 1 bytes. It takes time and room
/// linear in their number.
///
/// A refusal stands at the first token such that no script begins with the tokens up to it: `Unexpected`, or `BadNumber`
/// where it is a number of 2^64 or more. If a token before it opens level 201, the refusal is `TooDeep` there. It is
/// `EndOfText`, at the place after the last byte, where the tokens begin a script and are none. `NoMemory` comes where
/// memory runs out. Names, sorts and counts are not looked at. This project's own.
pub fn parse_script(alloc: Global, text: &[u8], tokens: &[Token]) -> Result<Tree, Refusal>
    requires { length text.now < 2 ^ 32 - 1 }

    // What is read is the tree of a script that the tokens spell, and a script that they spell is read as its tree.
    ensures read { IfOk result (λ tree. IsTree text.now (seen_in text.now tokens.now) tree.nodes.items) }
    ensures only { (script : AnyScript) → IsRead text.now (seen_in text.now tokens.now) script
        → IsReadSo (λ tree. IsTreeOf text.now tree.nodes.items script) result }

    // A refusal stands at the first fault of the grammar, and where there is one, the text is refused there.
    ensures refused { IfErr result (Refuses text.now (IsRefusedAt text.now (seen_in text.now tokens.now))) }
    ensures fault { (at : ℕ) (code : AnyCode) → IsRefusedAt text.now (seen_in text.now tokens.now) at code
        → IsRefusedAs (place_at text.now at) code result }
{
    read_or_refused(alloc, text, tokens)
}
