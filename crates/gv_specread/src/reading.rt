//! Reads the tokens of a specification as its tree.

ghost use Rattle.std.specs.Prelude.{◌≡◌, ◌<◌, ◌-◌, ◌^◌, ℕ, length, IfOk, IfErr};
ghost use Rattle.gv_base.specs.Places.{place_at};
ghost use Rattle.gv_base.specs.declared.answers.Code.{Code as AnyCode};
ghost use Rattle.gv_grammar.specs.Text.{Says};
ghost use Rattle.gv_text.specs.Answers.{IsReadAs, IsRefusedAs, Refuses};
ghost use Rattle.gv_specread.specs.Language.{IsSpec};
ghost use Rattle.gv_specread.specs.Seen.{seen as seen_in};
ghost use Rattle.gv_specread.specs.Reading.{IsRead, IsRefusedAt};
ghost use Rattle.gv_specread.specs.declared.tree.SpecTree.{SpecTree as AnySpec};

use crate::generated::spec_acts::build_spec;
use crate::generated::spec_table::{NAME_TEXT, spec_grammar};
use crate::seen::seen;
use crate::tree::SpecTree;
use gv_base::{Code, Refusal, Token};
use gv_grammar::{ReadFault, derive_within};
use gv_termread::{MAX_LEVELS, SeenToken, classes_of, fault_of, token_at};
use gv_text::refusal_at;
use std::alloc::Global;

// The specification that the tokens spell.
fn read(alloc: Global, text: &[u8], tokens: &[SeenToken]) -> Result<SpecTree, ReadFault>
    ensures read { IfOk result (IsRead text.now tokens.now) }
    ensures fault { IfErr result (Says (IsSpec text.now 0) MAX_LEVELS tokens.now) }
{
    let classes = classes_of(alloc, tokens)?;
    match derive_within(alloc, &spec_grammar(), NAME_TEXT, &classes, 0, MAX_LEVELS) {
        Ok(steps) => Ok(build_spec(alloc, text, &steps, tokens)?),
        Err(fault) => Err(fault),
    }
}

// A fault of the grammar as a refusal of the text.
fn refusal_of(text: &[u8], tokens: &[SeenToken], fault: ReadFault) -> Refusal
    requires small { length text.now < 2 ^ 32 - 1 }
    requires says { Says (IsSpec text.now 0) MAX_LEVELS tokens.now fault }
    ensures { Refuses text.now (IsRefusedAt text.now tokens.now) result }
{
    match fault {
        ReadFault::NoMemory => Refusal::NoMemory,
        ReadFault::Refused { at } => {
            let (start, code) = fault_of(token_at(tokens, at));
            refusal_at(text, start, code)
        }
        ReadFault::TooDeep { at } => {
            let token = token_at(tokens, at);
            refusal_at(text, token.start, Code::TooDeep)
        }
        ReadFault::End => refusal_at(text, text.len() as u32, Code::EndOfText),
    }
}

// The tree of a text, or its refusal.
fn read_or_refused(alloc: Global, text: &[u8], tokens: &[Token]) -> Result<SpecTree, Refusal>
    requires { length text.now < 2 ^ 32 - 1 }
    ensures read { IfOk result (IsRead text.now (seen_in text.now tokens.now)) }
    ensures refused { IfErr result (Refuses text.now (IsRefusedAt text.now (seen_in text.now tokens.now))) }
{
    let seen = seen(alloc, text, tokens)?;
    match read(alloc, text, &seen) {
        Ok(tree) => Ok(tree),
        Err(fault) => Err(refusal_of(text, &seen, fault)),
    }
}

/// The one tree that the tokens of a specification spell by its grammar, within 200 levels of nesting, or the text's
/// refusal. The tokens are those that `lex` of gv_lex gives for the text, of fewer than 2^32 - 1 bytes. It takes time
/// and room linear in their number.
///
/// A refusal stands at the first token such that no specification begins with the tokens up to it: `Unexpected`, or
/// `BadNumber` where it is a number of 2^64 or more. If a token before it opens level 201, the refusal is `TooDeep`
/// there. It is `EndOfText`, at the place after the last byte, where the tokens begin a specification and are none.
/// `NoMemory` comes where memory runs out. Names, sorts and counts are not looked at. This project's own.
pub fn parse_spec(alloc: Global, text: &[u8], tokens: &[Token]) -> Result<SpecTree, Refusal>
    requires { length text.now < 2 ^ 32 - 1 }

    // What is read is so, and what is so is read.
    ensures read { IfOk result (IsRead text.now (seen_in text.now tokens.now)) }
    ensures only { (tree : AnySpec) → IsRead text.now (seen_in text.now tokens.now) tree → IsReadAs tree result }

    // A refusal stands at the first fault of the grammar, and where there is one, the text is refused there.
    ensures refused { IfErr result (Refuses text.now (IsRefusedAt text.now (seen_in text.now tokens.now))) }
    ensures fault { (at : ℕ) (code : AnyCode) → IsRefusedAt text.now (seen_in text.now tokens.now) at code
        → IsRefusedAs (place_at text.now at) code result }
{
    read_or_refused(alloc, text, tokens)
}
