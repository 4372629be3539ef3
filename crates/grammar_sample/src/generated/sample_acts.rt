//! The parts of the sample language, and what acts make of them. Made by tools/grammar.py from sample.grammar: edit that.
ghost use Rattle.std.specs.Prelude.{◌≡◌, ◌≤◌, ◌<◌, ◌∷◌, [], true, reverse, Some, IsSome, OnOk, IfOk};
ghost use Rattle.gv_grammar.specs.Building.{has_tops, accepts, made_by, is_whole};
ghost use Rattle.grammar_sample.specs.SampleActs.{is_token, is_expr, is_args, is_head, is_call, is_right, is_stmt, is_stmts, made_begin, made_block, made_add, made_separated, made_nested, made_if, made_if_else, made_head, made_number, made_none, made_apply, made_paren, made_member, made_more, made_call, made_called, made_assign, made_not, made_value, made_call_value, made_operand, made_binary, made_name, made_select, made_first, made_next, sample_acts, sample_built};
ghost use Rattle.grammar_sample.specs.declared.generated.sample_acts.Part.TheVariants.{Token as PToken, Expr as PExpr, Args as PArgs, Head as PHead, Call as PCall, Right as PRight, Stmt as PStmt, Stmts as PStmts};

use crate::generated::sample_table::{
    ACT_ADD, ACT_APPLY, ACT_ASSIGN, ACT_BEGIN, ACT_BINARY, ACT_BLOCK, ACT_CALL, ACT_CALL_VALUE,
    ACT_CALLED, ACT_FIRST, ACT_HEAD, ACT_IF, ACT_IF_ELSE, ACT_MEMBER, ACT_MORE, ACT_NAME,
    ACT_NESTED, ACT_NEXT, ACT_NONE, ACT_NOT, ACT_NUMBER, ACT_OPERAND, ACT_PAREN, ACT_SELECT,
    ACT_SEPARATED, ACT_VALUE,
};
use crate::tree::{Call, Expr, Head, Right, Stmt, Token, call_of, left_of, named_of, with_item};
use gv_grammar::{FIRST_ACT, Step};
use sqlite_items::{Boxed, Items};
use std::alloc::{AllocError, Global};

/// What a stretch of tokens was read as.
#[derive(Drop)]
pub enum Part {
    Token(Token),
    Expr(Expr),
    Args(Items<Expr>),
    Head(Head),
    Call(Call),
    Right(Right),
    Stmt(Stmt),
    Stmts(Items<Stmt>),
}

fn pop_token(parts: &mut Vec<Part>) -> Token
    requires { has_tops (is_token ∷ []) (reverse parts.old.items) ≡ true }
    ensures { reverse parts.old.items ≡ PToken result ∷ reverse parts.new.items }
{
    match parts.pop() {
        Some(Part::Token(of)) => of,
        _ => unreachable!(),
    }
}

fn pop_expr(parts: &mut Vec<Part>) -> Expr
    requires { has_tops (is_expr ∷ []) (reverse parts.old.items) ≡ true }
    ensures { reverse parts.old.items ≡ PExpr result ∷ reverse parts.new.items }
{
    match parts.pop() {
        Some(Part::Expr(of)) => of,
        _ => unreachable!(),
    }
}

fn pop_args(parts: &mut Vec<Part>) -> Items<Expr>
    requires { has_tops (is_args ∷ []) (reverse parts.old.items) ≡ true }
    ensures { reverse parts.old.items ≡ PArgs result ∷ reverse parts.new.items }
{
    match parts.pop() {
        Some(Part::Args(of)) => of,
        _ => unreachable!(),
    }
}

fn pop_head(parts: &mut Vec<Part>) -> Head
    requires { has_tops (is_head ∷ []) (reverse parts.old.items) ≡ true }
    ensures { reverse parts.old.items ≡ PHead result ∷ reverse parts.new.items }
{
    match parts.pop() {
        Some(Part::Head(of)) => of,
        _ => unreachable!(),
    }
}

fn pop_call(parts: &mut Vec<Part>) -> Call
    requires { has_tops (is_call ∷ []) (reverse parts.old.items) ≡ true }
    ensures { reverse parts.old.items ≡ PCall result ∷ reverse parts.new.items }
{
    match parts.pop() {
        Some(Part::Call(of)) => of,
        _ => unreachable!(),
    }
}

fn pop_right(parts: &mut Vec<Part>) -> Right
    requires { has_tops (is_right ∷ []) (reverse parts.old.items) ≡ true }
    ensures { reverse parts.old.items ≡ PRight result ∷ reverse parts.new.items }
{
    match parts.pop() {
        Some(Part::Right(of)) => of,
        _ => unreachable!(),
    }
}

fn pop_stmt(parts: &mut Vec<Part>) -> Stmt
    requires { has_tops (is_stmt ∷ []) (reverse parts.old.items) ≡ true }
    ensures { reverse parts.old.items ≡ PStmt result ∷ reverse parts.new.items }
{
    match parts.pop() {
        Some(Part::Stmt(of)) => of,
        _ => unreachable!(),
    }
}

fn pop_stmts(parts: &mut Vec<Part>) -> Items<Stmt>
    requires { has_tops (is_stmts ∷ []) (reverse parts.old.items) ≡ true }
    ensures { reverse parts.old.items ≡ PStmts result ∷ reverse parts.new.items }
{
    match parts.pop() {
        Some(Part::Stmts(of)) => of,
        _ => unreachable!(),
    }
}

fn make_begin(alloc: Global, parts: &mut Vec<Part>) -> Result<(), AllocError>
    ensures { OnOk result (made_begin (reverse parts.old.items) ≡ reverse parts.new.items) }
{
    let made = Items::new(alloc);
    parts.push(Part::Stmts(made))?;
    Ok(())
}

fn make_block(parts: &mut Vec<Part>) -> Result<(), AllocError>
    requires { has_tops (is_token ∷ is_stmts ∷ is_token ∷ []) (reverse parts.old.items) ≡ true }
    ensures { OnOk result (made_block (reverse parts.old.items) ≡ reverse parts.new.items) }
{
    let _ = pop_token(parts);
    let stmts = pop_stmts(parts);
    let _ = pop_token(parts);
    let made = stmts;
    parts.push(Part::Stmts(made))?;
    Ok(())
}

fn make_add(parts: &mut Vec<Part>) -> Result<(), AllocError>
    requires { has_tops (is_stmt ∷ is_stmts ∷ []) (reverse parts.old.items) ≡ true }
    ensures { OnOk result (made_add (reverse parts.old.items) ≡ reverse parts.new.items) }
{
    let stmt = pop_stmt(parts);
    let stmts = pop_stmts(parts);
    let made = with_item(stmts, stmt)?;
    parts.push(Part::Stmts(made))?;
    Ok(())
}

fn make_separated(parts: &mut Vec<Part>) -> Result<(), AllocError>
    requires { has_tops (is_token ∷ is_stmts ∷ []) (reverse parts.old.items) ≡ true }
    ensures { OnOk result (made_separated (reverse parts.old.items) ≡ reverse parts.new.items) }
{
    let _ = pop_token(parts);
    let stmts = pop_stmts(parts);
    let made = stmts;
    parts.push(Part::Stmts(made))?;
    Ok(())
}

fn make_nested(parts: &mut Vec<Part>) -> Result<(), AllocError>
    requires { has_tops (is_stmts ∷ []) (reverse parts.old.items) ≡ true }
    ensures { OnOk result (made_nested (reverse parts.old.items) ≡ reverse parts.new.items) }
{
    let stmts = pop_stmts(parts);
    let made = Stmt::Block(stmts);
    parts.push(Part::Stmt(made))?;
    Ok(())
}

fn make_if(parts: &mut Vec<Part>) -> Result<(), AllocError>
    requires { has_tops (is_stmts ∷ is_expr ∷ is_token ∷ []) (reverse parts.old.items) ≡ true }
    ensures { OnOk result (made_if (reverse parts.old.items) ≡ reverse parts.new.items) }
{
    let stmts = pop_stmts(parts);
    let condition = pop_expr(parts);
    let _ = pop_token(parts);
    let made = Stmt::If(condition, stmts, None);
    parts.push(Part::Stmt(made))?;
    Ok(())
}

fn make_if_else(alloc: Global, parts: &mut Vec<Part>) -> Result<(), AllocError>
    requires { has_tops (is_stmt ∷ is_token ∷ is_stmts ∷ is_expr ∷ is_token ∷ []) (reverse parts.old.items) ≡ true }
    ensures { OnOk result (made_if_else (reverse parts.old.items) ≡ reverse parts.new.items) }
{
    let other = pop_stmt(parts);
    let _ = pop_token(parts);
    let stmts = pop_stmts(parts);
    let condition = pop_expr(parts);
    let _ = pop_token(parts);
    let made = Stmt::If(condition, stmts, Some(Boxed::new(alloc, other)?));
    parts.push(Part::Stmt(made))?;
    Ok(())
}

fn make_head(parts: &mut Vec<Part>) -> Result<(), AllocError>
    requires { has_tops (is_token ∷ []) (reverse parts.old.items) ≡ true }
    ensures { OnOk result (made_head (reverse parts.old.items) ≡ reverse parts.new.items) }
{
    let name = pop_token(parts);
    let made = Head {
        of: None,
        name: name.value,
    };
    parts.push(Part::Head(made))?;
    Ok(())
}

fn make_number(parts: &mut Vec<Part>) -> Result<(), AllocError>
    requires { has_tops (is_token ∷ []) (reverse parts.old.items) ≡ true }
    ensures { OnOk result (made_number (reverse parts.old.items) ≡ reverse parts.new.items) }
{
    let token = pop_token(parts);
    let made = Expr::Number(token.value);
    parts.push(Part::Expr(made))?;
    Ok(())
}

fn make_none(alloc: Global, parts: &mut Vec<Part>) -> Result<(), AllocError>
    ensures { OnOk result (made_none (reverse parts.old.items) ≡ reverse parts.new.items) }
{
    let made = Items::new(alloc);
    parts.push(Part::Args(made))?;
    Ok(())
}

fn make_apply(parts: &mut Vec<Part>) -> Result<(), AllocError>
    requires { has_tops (is_token ∷ is_args ∷ is_token ∷ is_token ∷ []) (reverse parts.old.items) ≡ true }
    ensures { OnOk result (made_apply (reverse parts.old.items) ≡ reverse parts.new.items) }
{
    let _ = pop_token(parts);
    let arguments = pop_args(parts);
    let _ = pop_token(parts);
    let function = pop_token(parts);
    let made = Expr::Apply(function.value, arguments);
    parts.push(Part::Expr(made))?;
    Ok(())
}

fn make_paren(parts: &mut Vec<Part>) -> Result<(), AllocError>
    requires { has_tops (is_token ∷ is_expr ∷ is_token ∷ []) (reverse parts.old.items) ≡ true }
    ensures { OnOk result (made_paren (reverse parts.old.items) ≡ reverse parts.new.items) }
{
    let _ = pop_token(parts);
    let inner = pop_expr(parts);
    let _ = pop_token(parts);
    let made = inner;
    parts.push(Part::Expr(made))?;
    Ok(())
}

fn make_member(parts: &mut Vec<Part>) -> Result<(), AllocError>
    requires { has_tops (is_token ∷ is_token ∷ is_expr ∷ []) (reverse parts.old.items) ≡ true }
    ensures { OnOk result (made_member (reverse parts.old.items) ≡ reverse parts.new.items) }
{
    let name = pop_token(parts);
    let _ = pop_token(parts);
    let inner = pop_expr(parts);
    let made = Head {
        of: Some(inner),
        name: name.value,
    };
    parts.push(Part::Head(made))?;
    Ok(())
}

fn make_more(alloc: Global, parts: &mut Vec<Part>) -> Result<(), AllocError>
    requires { has_tops (is_token ∷ is_token ∷ is_head ∷ []) (reverse parts.old.items) ≡ true }
    ensures { OnOk result (made_more (reverse parts.old.items) ≡ reverse parts.new.items) }
{
    let name = pop_token(parts);
    let _ = pop_token(parts);
    let head = pop_head(parts);
    let made = Head {
        of: Some(named_of(alloc, head)?),
        name: name.value,
    };
    parts.push(Part::Head(made))?;
    Ok(())
}

fn make_call(parts: &mut Vec<Part>) -> Result<(), AllocError>
    requires { has_tops (is_token ∷ is_args ∷ is_token ∷ is_head ∷ []) (reverse parts.old.items) ≡ true }
    ensures { OnOk result (made_call (reverse parts.old.items) ≡ reverse parts.new.items) }
{
    let _ = pop_token(parts);
    let arguments = pop_args(parts);
    let _ = pop_token(parts);
    let head = pop_head(parts);
    let made = call_of(head, arguments);
    parts.push(Part::Call(made))?;
    Ok(())
}

fn make_called(parts: &mut Vec<Part>) -> Result<(), AllocError>
    requires { has_tops (is_call ∷ []) (reverse parts.old.items) ≡ true }
    ensures { OnOk result (made_called (reverse parts.old.items) ≡ reverse parts.new.items) }
{
    let call = pop_call(parts);
    let made = Stmt::Called(call);
    parts.push(Part::Stmt(made))?;
    Ok(())
}

fn make_assign(parts: &mut Vec<Part>) -> Result<(), AllocError>
    requires { has_tops (is_right ∷ is_token ∷ is_head ∷ []) (reverse parts.old.items) ≡ true }
    ensures { OnOk result (made_assign (reverse parts.old.items) ≡ reverse parts.new.items) }
{
    let right = pop_right(parts);
    let sign = pop_token(parts);
    let head = pop_head(parts);
    let made = Stmt::Assign(left_of(head), sign, right);
    parts.push(Part::Stmt(made))?;
    Ok(())
}

fn make_not(alloc: Global, parts: &mut Vec<Part>) -> Result<(), AllocError>
    requires { has_tops (is_expr ∷ is_token ∷ []) (reverse parts.old.items) ≡ true }
    ensures { OnOk result (made_not (reverse parts.old.items) ≡ reverse parts.new.items) }
{
    let inner = pop_expr(parts);
    let _ = pop_token(parts);
    let made = Expr::Not(Boxed::new(alloc, inner)?);
    parts.push(Part::Expr(made))?;
    Ok(())
}

fn make_value(parts: &mut Vec<Part>) -> Result<(), AllocError>
    requires { has_tops (is_expr ∷ []) (reverse parts.old.items) ≡ true }
    ensures { OnOk result (made_value (reverse parts.old.items) ≡ reverse parts.new.items) }
{
    let inner = pop_expr(parts);
    let made = Right::Value(inner);
    parts.push(Part::Right(made))?;
    Ok(())
}

fn make_call_value(parts: &mut Vec<Part>) -> Result<(), AllocError>
    requires { has_tops (is_call ∷ []) (reverse parts.old.items) ≡ true }
    ensures { OnOk result (made_call_value (reverse parts.old.items) ≡ reverse parts.new.items) }
{
    let call = pop_call(parts);
    let made = Right::Result(call);
    parts.push(Part::Right(made))?;
    Ok(())
}

fn make_operand(alloc: Global, parts: &mut Vec<Part>) -> Result<(), AllocError>
    requires { has_tops (is_head ∷ []) (reverse parts.old.items) ≡ true }
    ensures { OnOk result (made_operand (reverse parts.old.items) ≡ reverse parts.new.items) }
{
    let head = pop_head(parts);
    let made = named_of(alloc, head)?;
    parts.push(Part::Expr(made))?;
    Ok(())
}

fn make_binary(alloc: Global, parts: &mut Vec<Part>) -> Result<(), AllocError>
    requires { has_tops (is_expr ∷ is_token ∷ is_expr ∷ []) (reverse parts.old.items) ≡ true }
    ensures { OnOk result (made_binary (reverse parts.old.items) ≡ reverse parts.new.items) }
{
    let right = pop_expr(parts);
    let sign = pop_token(parts);
    let left = pop_expr(parts);
    let made = Expr::Binary(sign, Boxed::new(alloc, left)?, Boxed::new(alloc, right)?);
    parts.push(Part::Expr(made))?;
    Ok(())
}

fn make_name(parts: &mut Vec<Part>) -> Result<(), AllocError>
    requires { has_tops (is_token ∷ []) (reverse parts.old.items) ≡ true }
    ensures { OnOk result (made_name (reverse parts.old.items) ≡ reverse parts.new.items) }
{
    let token = pop_token(parts);
    let made = Expr::Name(token.value);
    parts.push(Part::Expr(made))?;
    Ok(())
}

fn make_select(alloc: Global, parts: &mut Vec<Part>) -> Result<(), AllocError>
    requires { has_tops (is_token ∷ is_token ∷ is_expr ∷ []) (reverse parts.old.items) ≡ true }
    ensures { OnOk result (made_select (reverse parts.old.items) ≡ reverse parts.new.items) }
{
    let name = pop_token(parts);
    let _ = pop_token(parts);
    let inner = pop_expr(parts);
    let made = Expr::Select(Boxed::new(alloc, inner)?, name.value);
    parts.push(Part::Expr(made))?;
    Ok(())
}

fn make_first(parts: &mut Vec<Part>) -> Result<(), AllocError>
    requires { has_tops (is_expr ∷ is_args ∷ []) (reverse parts.old.items) ≡ true }
    ensures { OnOk result (made_first (reverse parts.old.items) ≡ reverse parts.new.items) }
{
    let last = pop_expr(parts);
    let arguments = pop_args(parts);
    let made = with_item(arguments, last)?;
    parts.push(Part::Args(made))?;
    Ok(())
}

fn make_next(parts: &mut Vec<Part>) -> Result<(), AllocError>
    requires { has_tops (is_expr ∷ is_token ∷ is_args ∷ []) (reverse parts.old.items) ≡ true }
    ensures { OnOk result (made_next (reverse parts.old.items) ≡ reverse parts.new.items) }
{
    let last = pop_expr(parts);
    let _ = pop_token(parts);
    let arguments = pop_args(parts);
    let made = with_item(arguments, last)?;
    parts.push(Part::Args(made))?;
    Ok(())
}

/// Does an act on the parts, the last of them on top.
fn make(alloc: Global, act: u8, parts: &mut Vec<Part>) -> Result<(), AllocError>
    requires behind_marks { FIRST_ACT ≤ act }
    requires accepted { accepts sample_acts act (reverse parts.old.items) ≡ true }
    ensures { OnOk result (made_by sample_acts act (reverse parts.old.items) ≡ reverse parts.new.items) }
{
    match act {
        ACT_BEGIN => make_begin(alloc, parts),
        ACT_BLOCK => make_block(parts),
        ACT_ADD => make_add(parts),
        ACT_SEPARATED => make_separated(parts),
        ACT_NESTED => make_nested(parts),
        ACT_IF => make_if(parts),
        ACT_IF_ELSE => make_if_else(alloc, parts),
        ACT_HEAD => make_head(parts),
        ACT_NUMBER => make_number(parts),
        ACT_NONE => make_none(alloc, parts),
        ACT_APPLY => make_apply(parts),
        ACT_PAREN => make_paren(parts),
        ACT_MEMBER => make_member(parts),
        ACT_MORE => make_more(alloc, parts),
        ACT_CALL => make_call(parts),
        ACT_CALLED => make_called(parts),
        ACT_ASSIGN => make_assign(parts),
        ACT_NOT => make_not(alloc, parts),
        ACT_VALUE => make_value(parts),
        ACT_CALL_VALUE => make_call_value(parts),
        ACT_OPERAND => make_operand(alloc, parts),
        ACT_BINARY => make_binary(alloc, parts),
        ACT_NAME => make_name(parts),
        ACT_SELECT => make_select(alloc, parts),
        ACT_FIRST => make_first(parts),
        ACT_NEXT => make_next(parts),
        _ => unreachable!(),
    }
}

/// The parts that the steps leave of the tokens.
fn build_parts(alloc: Global, steps: &[Step], tokens: &[Token]) -> Result<Vec<Part>, AllocError>
    requires { IsSome (sample_built steps.now tokens.now) }
    ensures { IfOk result (λ parts. sample_built steps.now tokens.now ≡ Some (reverse parts.items)) }
{
    let mut parts = Vec::new(alloc);
    let mut rest = tokens;
    for step in steps {
        match step {
            Step::Take => {
                let Some((token, after)) = rest.split_first() else {
                    unreachable!()
                };
                parts.push(Part::Token(*token))?;
                rest = after;
            }
            Step::Do(act) => {
                if *act >= FIRST_ACT {
                    make(alloc, *act, &mut parts)?;
                }
            }
        }
    }
    Ok(parts)
}

/// What the steps of a derivation of a whole Block build of its tokens.
pub fn build_stmts(
    alloc: Global,
    steps: &[Step],
    tokens: &[Token],
) -> Result<Items<Stmt>, AllocError>
    requires { is_whole is_stmts (sample_built steps.now tokens.now) ≡ true }
    ensures { IfOk result (λ whole. sample_built steps.now tokens.now ≡ Some (PStmts whole ∷ [])) }
{
    let mut parts = build_parts(alloc, steps, tokens)?;
    Ok(pop_stmts(&mut parts))
}

/// What the steps of a derivation of a whole Sum build of its tokens.
pub fn build_expr(alloc: Global, steps: &[Step], tokens: &[Token]) -> Result<Expr, AllocError>
    requires { is_whole is_expr (sample_built steps.now tokens.now) ≡ true }
    ensures { IfOk result (λ whole. sample_built steps.now tokens.now ≡ Some (PExpr whole ∷ [])) }
{
    let mut parts = build_parts(alloc, steps, tokens)?;
    Ok(pop_expr(&mut parts))
}
