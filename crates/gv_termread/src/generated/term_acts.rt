//! The parts of the term language, and what acts make of them. Made by tools/grammar.py from term.grammar: edit that.
ghost use Rattle.std.specs.Prelude.{◌≡◌, ◌≤◌, ◌<◌, ◌∷◌, [], true, reverse, Some, IsSome, OnOk, IfOk};
ghost use Rattle.gv_grammar.specs.Building.{has_tops, accepts, made_by, is_whole};
ghost use Rattle.gv_termread.specs.TermActs.{is_token, is_term, made_binary, made_unary, made_number, made_constant, made_variable, made_paren, made_maker, made_of_one, made_of_two, made_of_three, term_acts, term_built};
ghost use Rattle.gv_termread.specs.declared.generated.term_acts.Part.TheVariants.{Token as PToken, Term as PTerm};

use crate::generated::term_table::{
    ACT_BINARY, ACT_CONSTANT, ACT_MAKER, ACT_NUMBER, ACT_OF_ONE, ACT_OF_THREE, ACT_OF_TWO,
    ACT_PAREN, ACT_UNARY, ACT_VARIABLE, ACTS_END,
};
use crate::making::{
    binary, constant, in_parens, maker, number, of_one, of_three, of_two, unary, variable,
};
use crate::placed::PlacedTerm;
use crate::token::SeenToken;
use gv_grammar::{FIRST_ACT, Step};
use std::alloc::{AllocError, Global};

/// What a stretch of tokens was read as; `Other` is what an including language has besides.
#[derive(Drop)]
pub enum Part<O> {
    Token(SeenToken),
    Term(PlacedTerm),
    Other(O),
}

/// What the term language alone has besides.
#[derive(Drop)]
pub struct NoOther;

pub fn pop_token<O: Drop>(parts: &mut Vec<Part<O>>) -> SeenToken
    requires { has_tops (is_token ∷ []) (reverse parts.old.items) ≡ true }
    ensures { reverse parts.old.items ≡ PToken result ∷ reverse parts.new.items }
{
    match parts.pop() {
        Some(Part::Token(of)) => of,
        _ => unreachable!(),
    }
}

pub fn pop_term<O: Drop>(parts: &mut Vec<Part<O>>) -> PlacedTerm
    requires { has_tops (is_term ∷ []) (reverse parts.old.items) ≡ true }
    ensures { reverse parts.old.items ≡ PTerm result ∷ reverse parts.new.items }
{
    match parts.pop() {
        Some(Part::Term(of)) => of,
        _ => unreachable!(),
    }
}

fn make_binary<O: Drop>(alloc: Global, parts: &mut Vec<Part<O>>) -> Result<(), AllocError>
    requires { has_tops (is_term ∷ is_token ∷ is_term ∷ []) (reverse parts.old.items) ≡ true }
    ensures { OnOk result (made_binary (reverse parts.old.items) ≡ reverse parts.new.items) }
{
    let right = pop_term(parts);
    let sign = pop_token(parts);
    let left = pop_term(parts);
    let made = binary(alloc, sign, left, right)?;
    parts.push(Part::Term(made))?;
    Ok(())
}

fn make_unary<O: Drop>(alloc: Global, parts: &mut Vec<Part<O>>) -> Result<(), AllocError>
    requires { has_tops (is_term ∷ is_token ∷ []) (reverse parts.old.items) ≡ true }
    ensures { OnOk result (made_unary (reverse parts.old.items) ≡ reverse parts.new.items) }
{
    let inner = pop_term(parts);
    let sign = pop_token(parts);
    let made = unary(alloc, sign, inner)?;
    parts.push(Part::Term(made))?;
    Ok(())
}

fn make_number<O: Drop>(alloc: Global, parts: &mut Vec<Part<O>>) -> Result<(), AllocError>
    requires { has_tops (is_token ∷ []) (reverse parts.old.items) ≡ true }
    ensures { OnOk result (made_number (reverse parts.old.items) ≡ reverse parts.new.items) }
{
    let token = pop_token(parts);
    let made = number(alloc, token);
    parts.push(Part::Term(made))?;
    Ok(())
}

fn make_constant<O: Drop>(alloc: Global, parts: &mut Vec<Part<O>>) -> Result<(), AllocError>
    requires { has_tops (is_token ∷ []) (reverse parts.old.items) ≡ true }
    ensures { OnOk result (made_constant (reverse parts.old.items) ≡ reverse parts.new.items) }
{
    let word = pop_token(parts);
    let made = constant(alloc, word);
    parts.push(Part::Term(made))?;
    Ok(())
}

fn make_variable<O: Drop>(
    alloc: Global,
    text: &[u8],
    parts: &mut Vec<Part<O>>,
) -> Result<(), AllocError>
    requires { has_tops (is_token ∷ []) (reverse parts.old.items) ≡ true }
    ensures { OnOk result (made_variable text.now (reverse parts.old.items) ≡ reverse parts.new.items) }
{
    let name = pop_token(parts);
    let made = variable(alloc, text, name)?;
    parts.push(Part::Term(made))?;
    Ok(())
}

fn make_paren<O: Drop>(parts: &mut Vec<Part<O>>) -> Result<(), AllocError>
    requires { has_tops (is_token ∷ is_term ∷ is_token ∷ []) (reverse parts.old.items) ≡ true }
    ensures { OnOk result (made_paren (reverse parts.old.items) ≡ reverse parts.new.items) }
{
    let _ = pop_token(parts);
    let inner = pop_term(parts);
    let brace = pop_token(parts);
    let made = in_parens(brace, inner);
    parts.push(Part::Term(made))?;
    Ok(())
}

fn make_maker<O: Drop>(alloc: Global, parts: &mut Vec<Part<O>>) -> Result<(), AllocError>
    requires { has_tops (is_token ∷ is_term ∷ is_token ∷ is_token ∷ is_token ∷ is_token ∷ []) (reverse parts.old.items) ≡ true }
    ensures { OnOk result (made_maker (reverse parts.old.items) ≡ reverse parts.new.items) }
{
    let _ = pop_token(parts);
    let item = pop_term(parts);
    let _ = pop_token(parts);
    let count = pop_token(parts);
    let _ = pop_token(parts);
    let name = pop_token(parts);
    let made = maker(alloc, name, count, item)?;
    parts.push(Part::Term(made))?;
    Ok(())
}

fn make_of_one<O: Drop>(alloc: Global, parts: &mut Vec<Part<O>>) -> Result<(), AllocError>
    requires { has_tops (is_token ∷ is_term ∷ is_token ∷ is_token ∷ []) (reverse parts.old.items) ≡ true }
    ensures { OnOk result (made_of_one (reverse parts.old.items) ≡ reverse parts.new.items) }
{
    let _ = pop_token(parts);
    let a = pop_term(parts);
    let _ = pop_token(parts);
    let name = pop_token(parts);
    let made = of_one(alloc, name, a)?;
    parts.push(Part::Term(made))?;
    Ok(())
}

fn make_of_two<O: Drop>(alloc: Global, parts: &mut Vec<Part<O>>) -> Result<(), AllocError>
    requires { has_tops (is_token ∷ is_term ∷ is_token ∷ is_term ∷ is_token ∷ is_token ∷ []) (reverse parts.old.items) ≡ true }
    ensures { OnOk result (made_of_two (reverse parts.old.items) ≡ reverse parts.new.items) }
{
    let _ = pop_token(parts);
    let b = pop_term(parts);
    let _ = pop_token(parts);
    let a = pop_term(parts);
    let _ = pop_token(parts);
    let name = pop_token(parts);
    let made = of_two(alloc, name, a, b)?;
    parts.push(Part::Term(made))?;
    Ok(())
}

fn make_of_three<O: Drop>(alloc: Global, parts: &mut Vec<Part<O>>) -> Result<(), AllocError>
    requires { has_tops (is_token ∷ is_term ∷ is_token ∷ is_term ∷ is_token ∷ is_term ∷ is_token ∷ is_token ∷ []) (reverse parts.old.items) ≡ true }
    ensures { OnOk result (made_of_three (reverse parts.old.items) ≡ reverse parts.new.items) }
{
    let _ = pop_token(parts);
    let c = pop_term(parts);
    let _ = pop_token(parts);
    let b = pop_term(parts);
    let _ = pop_token(parts);
    let a = pop_term(parts);
    let _ = pop_token(parts);
    let name = pop_token(parts);
    let made = of_three(alloc, name, a, b, c)?;
    parts.push(Part::Term(made))?;
    Ok(())
}

/// Does an act on the parts, the last of them on top.
pub fn make<O: Drop>(
    alloc: Global,
    text: &[u8],
    act: u8,
    parts: &mut Vec<Part<O>>,
) -> Result<(), AllocError>
    requires behind_marks { FIRST_ACT ≤ act }
    requires of_these { act < ACTS_END }
    requires accepted { accepts (term_acts text.now) act (reverse parts.old.items) ≡ true }
    ensures { OnOk result (made_by (term_acts text.now) act (reverse parts.old.items) ≡ reverse parts.new.items) }
{
    match act {
        ACT_BINARY => make_binary(alloc, parts),
        ACT_UNARY => make_unary(alloc, parts),
        ACT_NUMBER => make_number(alloc, parts),
        ACT_CONSTANT => make_constant(alloc, parts),
        ACT_VARIABLE => make_variable(alloc, text, parts),
        ACT_PAREN => make_paren(parts),
        ACT_MAKER => make_maker(alloc, parts),
        ACT_OF_ONE => make_of_one(alloc, parts),
        ACT_OF_TWO => make_of_two(alloc, parts),
        ACT_OF_THREE => make_of_three(alloc, parts),
        _ => unreachable!(),
    }
}

/// The parts that the steps leave of the tokens.
fn build_parts(
    alloc: Global,
    text: &[u8],
    steps: &[Step],
    tokens: &[SeenToken],
) -> Result<Vec<Part<NoOther>>, AllocError>
    requires { IsSome (term_built text.now steps.now tokens.now) }
    ensures { IfOk result (λ parts. term_built text.now steps.now tokens.now ≡ Some (reverse parts.items)) }
{
    let mut parts = Vec::new(alloc);
    let mut rest = tokens;
    for step in steps {
        match step {
            Step::Take => {
                let Some((token, after)) = rest.split_first() else {
                    unreachable!()
                };
                parts.push(Part::Token(*token))?;
                rest = after;
            }
            Step::Do(act) => {
                if *act >= FIRST_ACT {
                    make(alloc, text, *act, &mut parts)?;
                }
            }
        }
    }
    Ok(parts)
}

/// What the steps of a derivation of a whole Whole build of its tokens.
pub fn build_term(
    alloc: Global,
    text: &[u8],
    steps: &[Step],
    tokens: &[SeenToken],
) -> Result<PlacedTerm, AllocError>
    requires { is_whole is_term (term_built text.now steps.now tokens.now) ≡ true }
    ensures { IfOk result (λ whole. term_built text.now steps.now tokens.now ≡ Some (PTerm whole ∷ [])) }
{
    let mut parts = build_parts(alloc, text, steps, tokens)?;
    Ok(pop_term(&mut parts))
}
