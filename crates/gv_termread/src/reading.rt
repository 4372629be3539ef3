//! Reads terms by themselves.

ghost use Rattle.std.specs.Prelude.{◌≡◌, ◌≤◌, ◌<◌, ◌-◌, ◌+◌, ◌^◌, ℕ, length, map, take, drop, IfOk, IfErr};
ghost use Rattle.gv_base.specs.Places.{place_at};
ghost use Rattle.gv_base.specs.declared.answers.Code.{Code as AnyCode};
ghost use Rattle.gv_base.specs.declared.answers.Refusal.TheVariants as answer;
ghost use Rattle.gv_grammar.specs.Text.{SaysOfFront};
ghost use Rattle.gv_terms.specs.declared.tree.RawTerm.{RawTerm as AnyRaw};
ghost use Rattle.gv_text.specs.Answers.{IsReadSo, IsRefusedAs, Refuses};
ghost use Rattle.gv_termread.specs.declared.placed.PlacedTerm.{PlacedTerm as AnyTerm};
ghost use Rattle.gv_termread.specs.Language.{IsTerm};
ghost use Rattle.gv_termread.specs.Seen.{seen as seen_in};
ghost use Rattle.gv_termread.specs.Reading as spec;

use crate::generated::term_acts::build_term;
use crate::generated::term_table::{NAME_WHOLE, term_grammar};
use crate::placed::PlacedTerm;
use crate::refusing::{fault_of, token_at};
use crate::seen::seen;
use crate::token::SeenToken;
use gv_base::{Code, Refusal, Token};
use gv_grammar::{ReadFault, longest_within};
use gv_terms::RawTerm;
use gv_text::refusal_at;
use std::alloc::{AllocError, Global};

/// How many levels of nesting a text may have.
pub const MAX_LEVELS: u32 = 200;

/// The class of each token.
pub fn classes_of(alloc: Global, tokens: &[SeenToken]) -> Result<Vec<u8>, AllocError>
    ensures { IfOk result (λ classes. classes.items ≡ map (λ token. token.class) tokens.now) }
{
    tokens.iter().map(|token| token.class).collect(alloc)
}

// The term at the front of the tokens, where `level` levels are open before them: the longest front that a term begins
// with, if it is itself a term, and how many tokens it has.
fn read_front(
    alloc: Global,
    text: &[u8],
    tokens: &[SeenToken],
    level: u32,
) -> Result<(PlacedTerm, usize), ReadFault>
    ensures read { IfOk result (λ front. spec.IsFront level text.now tokens.now front.0 front.1) }
    ensures within { IfOk result (λ front. front.1 ≤ length tokens.now) }
    ensures fault { IfErr result (SaysOfFront (IsTerm (spec.alone text.now) level) MAX_LEVELS tokens.now) }
{
    let classes = classes_of(alloc, tokens)?;
    match longest_within(
        alloc,
        &term_grammar(),
        NAME_WHOLE,
        &classes,
        level,
        MAX_LEVELS,
    ) {
        Ok(run) => {
            let term = build_term(alloc, text, &run.steps, &tokens[..run.len])?;
            Ok((term, run.len))
        }
        Err(fault) => Err(fault),
    }
}

// A fault of a term as a refusal of the text.
fn refusal_of(text: &[u8], tokens: &[SeenToken], level: u32, fault: ReadFault) -> Refusal
    requires small { length text.now < 2 ^ 32 - 1 }
    requires says { SaysOfFront (IsTerm (spec.alone text.now) level) MAX_LEVELS tokens.now fault }
    ensures { Refuses text.now (spec.IsFrontRefused level text.now tokens.now) result }
{
    match fault {
        ReadFault::NoMemory => Refusal::NoMemory,
        ReadFault::Refused { at } => {
            let (start, code) = fault_of(token_at(tokens, at));
            refusal_at(text, start, code)
        }
        ReadFault::TooDeep { at } => {
            let token = token_at(tokens, at);
            refusal_at(text, token.start, Code::TooDeep)
        }
        ReadFault::End => refusal_at(text, text.len() as u32, Code::EndOfText),
    }
}

// The number of a token, where it has 32 bits.
fn number_of_token(at: u32, len: usize) -> Result<u32, Refusal>
    ensures sum { IfOk result (λ next. next ≡ at + len) }
    ensures none { IfErr result (λ refusal. refusal ≡ answer.NoMemory) }
{
    match (at as u64).checked_add(len as u64) {
        Some(next) if next <= u32::MAX as u64 => Ok(next as u32),
        _ => Err(Refusal::NoMemory),
    }
}

// The term from a token on with its places, and the number of the token behind it.
fn placed_from(
    alloc: Global,
    text: &[u8],
    tokens: &[Token],
    at: u32,
    depth: u32,
) -> Result<(PlacedTerm, u32), Refusal>
    requires small { length text.now < 2 ^ 32 - 1 }
    requires within { at ≤ length tokens.now }
    ensures read { IfOk result (spec.IsPlacedRead text.now tokens.now at depth) }
    ensures refused { IfErr result (Refuses text.now (spec.IsRefusedFrom text.now tokens.now at depth)) }
{
    let seen = seen(alloc, text, &tokens[at as usize..])?;
    match read_front(alloc, text, &seen, depth) {
        Ok((term, len)) => match number_of_token(at, len) {
            Ok(next) => Ok((term, next)),
            Err(_) => Err(Refusal::NoMemory),
        },
        Err(fault) => Err(refusal_of(text, &seen, depth, fault)),
    }
}

fn without_places(placed: PlacedTerm) -> RawTerm
    ensures { result ≡ placed.term }
{
    let PlacedTerm { term, .. } = placed;
    term
}

// The same without places.
fn term_from(
    alloc: Global,
    text: &[u8],
    tokens: &[Token],
    at: u32,
    depth: u32,
) -> Result<(RawTerm, u32), Refusal>
    requires small { length text.now < 2 ^ 32 - 1 }
    requires within { at ≤ length tokens.now }
    ensures read { IfOk result (spec.IsRead text.now tokens.now at depth) }
    ensures refused { IfErr result (Refuses text.now (spec.IsRefusedFrom text.now tokens.now at depth)) }
{
    match placed_from(alloc, text, tokens, at, depth) {
        Ok((placed, next)) => Ok((without_places(placed), next)),
        Err(refusal) => Err(refusal),
    }
}

/// The term that the tokens from number `at` on begin with, with the places of its nodes, and the number of the token
/// behind it; `depth` levels are open before it. The run is the most of these tokens that a term begins with. It is read
/// where it is itself a term within 200 levels.
///
/// Else the text is refused: `TooDeep` at the token of the run that opens level 201; or, behind the run, at the next token:
/// `Unexpected`, or `BadNumber` where it is a number of 2^64 or more; or `EndOfText` after the last byte, where there is no
/// next token. `NoMemory` comes where memory runs out, and where the next token's number has 33 bits. The tokens are those
/// that `lex` of gv_lex gives for the text, of fewer than 2^32 - 1 bytes. It takes time and room linear in the number of
/// tokens from `at` on. This project's own.
pub fn placed_term(
    alloc: Global,
    text: &[u8],
    tokens: &[Token],
    at: u32,
    depth: u32,
) -> Result<(PlacedTerm, u32), Refusal>
    requires small { length text.now < 2 ^ 32 - 1 }
    requires within { at ≤ length tokens.now }

    // What is read is so, and what is so is read.
    ensures read { IfOk result (spec.IsPlacedRead text.now tokens.now at depth) }
    ensures only { (tree : AnyTerm) (next : ℕ) → spec.IsPlacedRead text.now tokens.now at depth (tree, next)
        → IsReadSo (λ read. read ≡ (tree, next)) result }

    // A refusal stands at the first fault, and where there is one, the text is refused there.
    ensures refused { IfErr result (Refuses text.now (spec.IsRefusedFrom text.now tokens.now at depth)) }
    ensures fault { (start : ℕ) (code : AnyCode) → spec.IsRefusedFrom text.now tokens.now at depth start code
        → IsRefusedAs (place_at text.now start) code result }
{
    placed_from(alloc, text, tokens, at, depth)
}

/// The term that the tokens from number `at` on begin with, as `placed_term` reads it, without places.
pub fn term(
    alloc: Global,
    text: &[u8],
    tokens: &Vec<Token>,
    at: u32,
    depth: u32,
) -> Result<(RawTerm, u32), Refusal>
    requires small { length text.now < 2 ^ 32 - 1 }
    requires within { at ≤ length tokens.now.items }

    // What is read is so, and what is so is read.
    ensures read { IfOk result (spec.IsRead text.now tokens.now.items at depth) }
    ensures only { (tree : AnyRaw) (next : ℕ) → spec.IsRead text.now tokens.now.items at depth (tree, next)
        → IsReadSo (λ read. read ≡ (tree, next)) result }

    // A refusal stands at the first fault, and where there is one, the text is refused there.
    ensures refused { IfErr result (Refuses text.now (spec.IsRefusedFrom text.now tokens.now.items at depth)) }
    ensures fault { (start : ℕ) (code : AnyCode) → spec.IsRefusedFrom text.now tokens.now.items at depth start code
        → IsRefusedAs (place_at text.now start) code result }
{
    term_from(alloc, text, tokens, at, depth)
}
