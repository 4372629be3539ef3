//! Where operations stand in texts.

ghost use Rattle.std.specs.Prelude.{◌≡◌, ◌-◌, ◌^◌, ◌<◌, length, IfOk};
ghost use Rattle.gv_base.specs.Places.{place_at};
ghost use Rattle.gv_small.specs.Cursor.{token_of};
ghost use Rattle.gv_lex.specs.Reading as characters;
ghost use Rattle.gv_specread.specs.declared.tree.SpecTree.{SpecTree as AnyTree};
ghost use Rattle.gv_specs.specs.Reading.{HasTree, Spells};
ghost use Rattle.gv_interfaces.specs.Places as places;

use gv_atomic::Spec;
use gv_base::{Name, NoMemory, Place, Refusal, Token, place_of};
use gv_lex::lex;
use gv_small::{Cursor, SmallToken};
use gv_specread::{OpTree, SpecTree, parse_spec};
use gv_termread::bytes_from;
use std::alloc::Global;

// The tokens of a text that spells a specification.
fn tokens_of(alloc: Global, text: &[u8], spec: &Spec) -> Result<Vec<Token>, NoMemory>
    requires short { length text.now < 2 ^ 32 - 1 }
    requires spelled { Spells text.now spec.now }
    ensures { IfOk result (λ tokens. characters.IsRead text.now tokens.items) }
{
    match lex(alloc, text) {
        Ok(tokens) => Ok(tokens),
        Err(Refusal::NoMemory) => Err(NoMemory),
        Err(Refusal::At { .. }) => unreachable!(),
    }
}

// The tree of a text that spells a specification.
fn tree_of(alloc: Global, text: &[u8], spec: &Spec) -> Result<SpecTree, NoMemory>
    requires short { length text.now < 2 ^ 32 - 1 }
    requires spelled { Spells text.now spec.now }
    ensures { IfOk result (HasTree text.now) }
{
    let tokens = tokens_of(alloc, text, spec)?;
    match parse_spec(alloc, text, &tokens) {
        Ok(tree) => Ok(tree),
        Err(Refusal::NoMemory) => Err(NoMemory),
        Err(Refusal::At { .. }) => unreachable!(),
    }
}

// The place of a byte. What is behind the end stands at the end.
fn place_in(text: &[u8], at: u32) -> Place
    requires { length text.now < 2 ^ 32 - 1 }
    ensures { result ≡ place_at text.now at }
{
    place_of(text, at.min(text.len() as u32))
}

fn name_place(text: &[u8], name: &Name, ops: &[OpTree]) -> Option<Place>
    requires { length text.now < 2 ^ 32 - 1 }
    ensures { result ≡ places.name_place text.now name.now ops.now }
{
    let mut left = ops;
    while let [op, rest @ ..] = left {
        if bytes_from(text, op.name.start, op.name.end) == name.as_slice() {
            return Some(place_in(text, op.name.start));
        }
        left = rest;
    }
    None
}

/// Where a name stands in the text of a specification, as the name of an operation, where one bears it.
pub fn place_in_spec(
    alloc: Global,
    text: &[u8],
    spec: &Spec,
    name: &Name,
) -> Result<Option<Place>, NoMemory>
    requires short { length text.now < 2 ^ 32 - 1 }
    requires spelled { Spells text.now spec.now }
    ensures { IfOk result (λ o. (tree : AnyTree) × HasTree text.now tree × (o ≡ places.name_place text.now name.now tree.ops)) }
{
    let tree = tree_of(alloc, text, spec)?;
    Ok(name_place(text, name, tree.ops.as_slice()))
}

fn is_word(token: &SmallToken, name: &Name) -> bool
    ensures { result ≡ places.is_word name.now (token_of token.now) }
{
    match token {
        SmallToken::Word(word) => *word == name.as_slice(),
        _ => false,
    }
}

fn is_closing(token: &SmallToken) -> bool
    ensures { result ≡ places.is_closing (token_of token.now) }
{
    match token {
        SmallToken::Sign(byte) => *byte == b')',
        _ => false,
    }
}

/// Where the name of a method stands in the text of a package of the small form, where it has a method with that name.
pub fn place_in_package(text: &[u8], name: &Name) -> Option<Place>
    requires { length text.now < 2 ^ 32 - 1 }
    ensures { result ≡ places.method_place text.now name.now }
{
    let mut cursor = Cursor::new(text, true);
    let mut closed = false;
    while let Some(taken) = cursor.next() {
        if closed && is_word(&taken.token, name) {
            return Some(taken.place);
        }
        closed = is_closing(&taken.token);
    }
    None
}
