//! Reads tokens as a block.
ghost use Rattle.std.specs.Prelude.{◌≡◌, List, map, take, IfOk, IfErr};
ghost use Rattle.gv_grammar.specs.Text.{Says, SaysOfFront, Spells, IsWithin, IsLongestFront};
ghost use Rattle.grammar_sample.specs.Language.{IsBlock, IsExpression};
ghost use Rattle.grammar_sample.specs.declared.tree.Expr.{Expr as ExprTree};
ghost use Rattle.grammar_sample.specs.declared.tree.Stmt.{Stmt as StmtTree};

use crate::generated::sample_acts::{build_expr, build_stmts};
use crate::generated::sample_table::{NAME_BLOCK, NAME_SUM, sample_grammar};
use crate::tree::{Expr, Stmt, Token};
use gv_grammar::{ReadFault, derive_within, longest_within};
use sqlite_items::Items;
use std::alloc::{AllocError, Global};

/// How many levels of nesting a block may have, itself included.
pub const MAX_LEVELS: u32 = 200;

/// The class of each token.
fn classes_of(alloc: Global, tokens: &[Token]) -> Result<Vec<u8>, AllocError>
    ensures { IfOk result (λ classes. classes.items ≡ map (λ token. token.class) tokens.now) }
{
    tokens.iter().map(|token| token.class).collect(alloc)
}

/// The block that the tokens spell, in time and room linear in their number.
///
/// Errors: the first token that no block goes on with, or that opens a level above MAX_LEVELS; `End` where a block goes
/// on behind the tokens. Source: this project's own.
pub fn read(alloc: Global, tokens: &[Token]) -> Result<Items<Stmt>, ReadFault>
    ensures found { IfOk result (λ block. Spells (IsBlock 0) block tokens.now) }
    ensures within { IfOk result (λ block. IsWithin (IsBlock 0) MAX_LEVELS block tokens.now) }
    ensures only { IfOk result (λ block. (other : List StmtTree) → Spells (IsBlock 0) other tokens.now → other ≡ block) }
    ensures fault { IfErr result (Says (IsBlock 0) MAX_LEVELS tokens.now) }
{
    let classes = classes_of(alloc, tokens)?;
    match derive_within(
        alloc,
        &sample_grammar(),
        NAME_BLOCK,
        &classes,
        0,
        MAX_LEVELS,
    ) {
        Ok(steps) => Ok(build_stmts(alloc, &steps, tokens)?),
        Err(fault) => Err(fault),
    }
}

/// The expression that the tokens spell by themselves, by the same tables from another name on.
///
/// Errors: as those of `read`, of expressions. Source: this project's own.
pub fn read_sum(alloc: Global, tokens: &[Token]) -> Result<Expr, ReadFault>
    ensures found { IfOk result (λ sum. Spells (IsExpression 0) sum tokens.now) }
    ensures within { IfOk result (λ sum. IsWithin (IsExpression 0) MAX_LEVELS sum tokens.now) }
    ensures only { IfOk result (λ sum. (other : ExprTree) → Spells (IsExpression 0) other tokens.now → other ≡ sum) }
    ensures fault { IfErr result (Says (IsExpression 0) MAX_LEVELS tokens.now) }
{
    let classes = classes_of(alloc, tokens)?;
    match derive_within(alloc, &sample_grammar(), NAME_SUM, &classes, 0, MAX_LEVELS) {
        Ok(steps) => Ok(build_expr(alloc, &steps, tokens)?),
        Err(fault) => Err(fault),
    }
}

/// A block at the front of a list of tokens.
#[derive(Drop)]
pub struct Front {
    pub block: Items<Stmt>,
    /// How many tokens it has.
    pub len: usize,
}

/// The block at the front of the tokens, where `level` levels are open before them: the longest front that a block
/// begins with, if it is itself a block.
///
/// Errors: a token of this front that opens a level above MAX_LEVELS; if the front is no block, the token behind it, or
/// `End` where there is none. Source: this project's own.
pub fn read_front(alloc: Global, tokens: &[Token], level: u32) -> Result<Front, ReadFault>
    ensures longest { IfOk result (λ front. IsLongestFront (IsBlock level) tokens.now front.len) }
    ensures found { IfOk result (λ front. Spells (IsBlock level) front.block (take front.len tokens.now)) }
    ensures within { IfOk result (λ front. IsWithin (IsBlock level) MAX_LEVELS front.block (take front.len tokens.now)) }
    ensures only { IfOk result (λ front. (other : List StmtTree) → Spells (IsBlock level) other (take front.len tokens.now) → other ≡ front.block) }
    ensures fault { IfErr result (SaysOfFront (IsBlock level) MAX_LEVELS tokens.now) }
{
    let classes = classes_of(alloc, tokens)?;
    match longest_within(
        alloc,
        &sample_grammar(),
        NAME_BLOCK,
        &classes,
        level,
        MAX_LEVELS,
    ) {
        Ok(run) => {
            let block = build_stmts(alloc, &run.steps, &tokens[..run.len])?;
            Ok(Front {
                block,
                len: run.len,
            })
        }
        Err(fault) => Err(fault),
    }
}
