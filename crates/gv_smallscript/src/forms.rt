//! The operations of a script of the small form.

ghost use Rattle.std.specs.Prelude.{◌≡◌, ◌-◌, ◌^◌, ◌<◌, length, Some, None, IfOk, IfErr, IfSome, IfNone, List as Seq};
ghost use Rattle.gv_base.specs.Places.{place_at};
ghost use Rattle.gv_smallscript.specs.SmallScript as form;
ghost use Rattle.gv_smallscript.specs.declared.forms.SmallBlock.{SmallBlock as AnyBlock};
ghost use Rattle.gv_smallscript.specs.declared.forms.SmallScript.{SmallScript as AnyScript};
ghost use Rattle.gv_smallscript.specs.declared.forms.SmallFault.TheVariants as fault;

use crate::spelled::{are_spelled, same_bytes, text_of, token_at};
use gv_base::{Lines, List, Name, NoMemory, Place, Refusal, Token};
use gv_lex::lex;
use std::alloc::Global;
use thiserror::Error;

/// The predicates, the initial fold and the recovery that each script of the small form begins with.
const DECLARATIONS: [&[u8]; 70] = [
    b"pred", b"Crash", b"(", b")", b"{", b"case", b"(", b")", b"{", b"}", b"}", b"pred", b"H",
    b"(", b"p", b":", b"Ref", b")", b"{", b"case", b"(", b")", b"{", b"}", b"}", b"crash",
    b"Crash", b";", b"root", b"H", b";", b"init", b"{", b"fold", b"Crash", b"(", b")", b"1", b"(",
    b")", b";", b"}", b"recover", b"{", b"step", b"as", b"(", b"p", b")", b";", b"share", b"{",
    b"}", b";", b"open", b";", b"boot", b";", b"fold", b"H", b"(", b"p", b")", b"1", b"(", b")",
    b";", b"close", b";", b"}",
];

/// What stands behind the name of an operation.
const COMMANDS: [&[u8]; 11] = [
    b"{", b"open", b";", b"sim", b"me", b";", b"close", b";", b"step", b";", b"}",
];

/// A script of the small form: a block for each operation, in the order of its text.
/// This project's own.
#[derive(Debug, Drop)]
pub struct SmallScript {
    pub ops: List<SmallBlock>,
}

/// A block of the small form: the operation's name, and the place of its command `step`.
/// This project's own.
#[derive(Debug, Drop)]
pub struct SmallBlock {
    pub name: Name,
    pub step: Place,
}

/// Why a text gives no blocks of the small form. This project's own.
#[derive(Debug, Drop, Error)]
pub enum SmallFault {
    #[error("out of memory")]
    NoMemory,
    #[error("a script is not of the small form")]
    Other,
}

impl From<NoMemory> for SmallFault {
    ghost from_gives = { λ _ e. e ≡ fault.NoMemory };

    fn from(_e: NoMemory) -> SmallFault {
        SmallFault::NoMemory
    }
}

// The place of a byte. What is behind the end stands at the end.
fn place_in(index: &Lines, text: &[u8], at: u32) -> Place
    requires of { index.now ≡ text.now }
    requires short { length text.now < 2 ^ 32 - 1 }
    ensures { result ≡ place_at text.now at }
{
    index.place(at.min(text.len() as u32))
}

// The block that 13 tokens are, where they are one.
fn block_of(
    alloc: Global,
    text: &[u8],
    index: &Lines,
    tokens: &[Token],
) -> Result<Option<SmallBlock>, NoMemory>
    requires of { index.now ≡ text.now }
    requires short { length text.now < 2 ^ 32 - 1 }
    requires whole { length tokens.now ≡ 13 }
    ensures found { IfOk result (λ o. IfSome o (λ block. form.IsBlock text.now block tokens.now)) }
    ensures none { IfOk result (λ o. IfNone o ((block : AnyBlock) → form.IsBlock text.now block tokens.now → ⊥)) }
{
    let (front, commands) = tokens.split_at(2);
    let op = token_at(front, 0);
    let name = token_at(front, 1);
    let step = token_at(tokens, 10);
    if !same_bytes(text_of(text, op), b"op") {
        return Ok(None);
    }
    if !are_spelled(text, commands, &COMMANDS) {
        return Ok(None);
    }
    let name = Name::from_slice(alloc, text_of(text, name))?;
    let step = place_in(index, text, step.start);
    Ok(Some(SmallBlock { name, step }))
}

// The blocks that tokens are, where they are blocks.
fn blocks_of(
    alloc: Global,
    text: &[u8],
    index: &Lines,
    tokens: &[Token],
) -> Result<Option<List<SmallBlock>>, NoMemory>
    requires of { index.now ≡ text.now }
    requires short { length text.now < 2 ^ 32 - 1 }
    ensures found { IfOk result (λ o. IfSome o (λ blocks. form.AreBlocks text.now blocks tokens.now)) }
    ensures none { IfOk result (λ o. IfNone o ((blocks : Seq AnyBlock) → form.AreBlocks text.now blocks tokens.now → ⊥)) }
{
    let mut blocks = List::new(alloc);
    let mut left = tokens;
    while left.len() >= 13 {
        let (front, rest) = left.split_at(13);
        let Some(block) = block_of(alloc, text, index, front)? else {
            return Ok(None);
        };
        blocks.push(block)?;
        left = rest;
    }
    if !left.is_empty() {
        return Ok(None);
    }
    Ok(Some(blocks))
}

// The form of a text with these tokens, where it has one.
fn form_of(alloc: Global, text: &[u8], tokens: &[Token]) -> Result<Option<SmallScript>, NoMemory>
    requires short { length text.now < 2 ^ 32 - 1 }
    ensures found { IfOk result (λ o. IfSome o (λ script. form.HasForm text.now tokens.now script)) }
    ensures none { IfOk result (λ o. IfNone o ((script : AnyScript) → form.HasForm text.now tokens.now script → ⊥)) }
{
    if tokens.len() < 70 {
        return Ok(None);
    }
    let (declared, blocks) = tokens.split_at(70);
    if !are_spelled(text, declared, &DECLARATIONS) {
        return Ok(None);
    }
    let index = Lines::new(alloc, text)?;
    let Some(ops) = blocks_of(alloc, text, &index, blocks)? else {
        return Ok(None);
    };
    Ok(Some(SmallScript { ops }))
}

// The form that was found, or that there is none.
fn found_form(found: Option<SmallScript>) -> Result<SmallScript, SmallFault>
    ensures found { IfOk result (λ script. found ≡ Some script) }
    ensures other { IfErr result (λ e. found ≡ None) }
{
    match found {
        Some(script) => Ok(script),
        None => Err(SmallFault::Other),
    }
}

/// The blocks of a script of the small form, in the order of its text of fewer than 2^32 - 1 bytes: `Other` where the text isn't of
/// the form, and `NoMemory` where memory runs out. It takes time and room linear in the text. This project's own.
pub fn small_script(alloc: Global, text: &[u8]) -> Result<SmallScript, SmallFault>
    requires { length text.now < 2 ^ 32 - 1 }
    // What is found is the form, and a text that has one is given it or memory runs out.
    ensures found { IfOk result (λ script. form.IsSmallScript text.now script) }
    ensures other { IfErr result (λ e. e ≡ fault.Other → (script : AnyScript) → form.IsSmallScript text.now script → ⊥) }
{
    match lex(alloc, text) {
        Ok(tokens) => found_form(form_of(alloc, text, &tokens)?),
        Err(Refusal::NoMemory) => Err(SmallFault::NoMemory),
        Err(Refusal::At { place: _, code: _ }) => Err(SmallFault::Other),
    }
}
