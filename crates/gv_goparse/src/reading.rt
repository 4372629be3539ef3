//! Reads the tokens of a text as the tree of a package.

ghost use Rattle.std.specs.Prelude.{◌≡◌, ◌<◌, ◌-◌, ◌^◌, ℕ, Some, length, map, slice_get, IfOk, IfErr};
ghost use Rattle.gv_base.specs.Places.{place_at};
ghost use Rattle.gv_base.specs.declared.answers.Code.{Code as AnyCode};
ghost use Rattle.gv_grammar.specs.Text.{Says};
ghost use Rattle.gv_text.specs.Answers.{IsReadSo, IsRefusedAs, Refuses};
ghost use Rattle.gv_goparse.specs.Language.{IsFile};
ghost use Rattle.gv_goparse.specs.Seen.{seen as seen_in};
ghost use Rattle.gv_goparse.specs.Reading.{IsRead, IsRefusedAt, IsTree, code_of as code_by};
ghost use Rattle.gv_gosyntax.specs.Nodes.{IsTreeOf};
ghost use Rattle.gv_gosyntax.specs.declared.tree.File.{File as AnyFile};

use crate::seen::seen;
use gv_base::{Code, Refusal, Token};
use gv_gosyntax::generated::gosyntax_table::{CLASS_OUTSIDE, NAME_FILE, gosyntax_grammar};
use gv_gosyntax::{Lexeme, Node, Tree, nodes_of};
use gv_grammar::{ReadFault, derive_within};
use gv_text::refusal_at;
use std::alloc::{AllocError, Global};

/// How many levels of nesting a package may have.
pub const MAX_LEVELS: u32 = 200;

// The class of each token.
fn classes_of(alloc: Global, tokens: &[Lexeme]) -> Result<Vec<u8>, AllocError>
    ensures { IfOk result (λ classes. classes.items ≡ map (λ token. token.class) tokens.now) }
{
    tokens.iter().map(|token| token.class).collect(alloc)
}

// The tree of the tokens, or their first fault.
fn read(alloc: Global, tokens: &[Lexeme]) -> Result<Vec<Node>, ReadFault>
    ensures read { IfOk result (λ nodes. IsTree tokens.now nodes.items) }
    ensures fault { IfErr result (Says (IsFile 0) MAX_LEVELS tokens.now) }
{
    let classes = classes_of(alloc, tokens)?;
    match derive_within(
        alloc,
        &gosyntax_grammar(),
        NAME_FILE,
        &classes,
        0,
        MAX_LEVELS,
    ) {
        Ok(steps) => Ok(nodes_of(alloc, &steps, tokens)?),
        Err(fault) => Err(fault),
    }
}

// The token with this number.
fn token_at(tokens: &[Lexeme], at: usize) -> Lexeme
    requires { at < length tokens.now }
    ensures { slice_get tokens.now at ≡ Some result }
{
    tokens[at]
}

// The code of a token of this class that the grammar doesn't allow where it stands.
fn code_of(class: u8) -> Code
    ensures { result ≡ code_by class }
{
    if class == CLASS_OUTSIDE {
        Code::NotInProfile
    } else {
        Code::Unexpected
    }
}

// A fault of the grammar as a refusal of the text.
fn refusal_of(text: &[u8], tokens: &[Lexeme], fault: ReadFault) -> Refusal
    requires small { length text.now < 2 ^ 32 - 1 }
    requires says { Says (IsFile 0) MAX_LEVELS tokens.now fault }
    ensures { Refuses text.now (IsRefusedAt text.now tokens.now) result }
{
    match fault {
        ReadFault::NoMemory => Refusal::NoMemory,
        ReadFault::Refused { at } => {
            let token = token_at(tokens, at);
            refusal_at(text, token.start, code_of(token.class))
        }
        ReadFault::TooDeep { at } => {
            let token = token_at(tokens, at);
            refusal_at(text, token.start, Code::TooDeep)
        }
        ReadFault::End => refusal_at(text, text.len() as u32, Code::EndOfText),
    }
}

// The tree of a text, or its refusal.
fn read_or_refused(alloc: Global, text: &[u8], tokens: &[Token]) -> Result<Tree, Refusal>
    requires { length text.now < 2 ^ 32 - 1 }
    ensures read { IfOk result (λ tree. IsTree (seen_in text.now tokens.now) tree.nodes.items) }
    ensures refused { IfErr result (Refuses text.now (IsRefusedAt text.now (seen_in text.now tokens.now))) }
{
    let seen = seen(alloc, text, tokens)?;
    match read(alloc, &seen) {
        Ok(nodes) => Ok(Tree { nodes }),
        Err(fault) => Err(refusal_of(text, &seen, fault)),
    }
}

/// The tree of the package that the tokens of a text spell by its grammar, within 200 levels of nesting, or the text's refusal.
/// The tokens are those that `tokens` of gv_tokens gives for the text, of fewer than 2^32 - 1 bytes. It takes time and
/// room linear in their number.
///
/// A refusal stands at the first token such that no package begins with the tokens up to it: `NotInProfile` where it is a
/// keyword or an operator of Go that no package of the profile has, else `Unexpected`. If a token before it opens level
/// 201, the refusal is `TooDeep` there. It is `EndOfText`, at the place after the last byte, where the tokens begin a
/// package and are none. `NoMemory` comes where memory runs out. Names and types are not looked at.
/// The grammar is this project's profile of the Go specification.
pub fn parse(alloc: Global, text: &[u8], tokens: &[Token]) -> Result<Tree, Refusal>
    requires { length text.now < 2 ^ 32 - 1 }

    // What is read is the tree of a package that the tokens spell, and a package that they spell is read as its tree.
    ensures read { IfOk result (λ tree. IsTree (seen_in text.now tokens.now) tree.nodes.items) }
    ensures only { (file : AnyFile) → IsRead (seen_in text.now tokens.now) file → IsReadSo (λ tree. IsTreeOf tree.nodes.items file) result }

    // A refusal stands at the first fault of the grammar, and where there is one, the text is refused there.
    ensures refused { IfErr result (Refuses text.now (IsRefusedAt text.now (seen_in text.now tokens.now))) }
    ensures fault { (at : ℕ) (code : AnyCode) → IsRefusedAt text.now (seen_in text.now tokens.now) at code
        → IsRefusedAs (place_at text.now at) code result }
{
    read_or_refused(alloc, text, tokens)
}
