//! What operators make of expressions.

ghost use Rattle.std.specs.Prelude.{◌≡◌, IfOk};
ghost use Rattle.gv_lang.specs.Plain.{expr_of};
ghost use Rattle.gv_lang.specs.Tree as lang;
ghost use Rattle.gv_lang.specs.declared.pure.Unary.TheVariants as unary;
ghost use Rattle.gv_lang.specs.declared.pure.Binary.TheVariants as binary;
ghost use Rattle.gv_lowering.specs.Operands as lower;
ghost use Rattle.gv_lowerops.specs.Tails.{last_of};

use crate::last::{Last, Reading};
use gv_base::NoMemory;
use gv_gosyntax::generated::gosyntax_table::{
    CLASS_AMP, CLASS_AMP_CARET, CLASS_AND_AND, CLASS_AT_LEAST, CLASS_AT_MOST, CLASS_BANG,
    CLASS_BAR, CLASS_CARET, CLASS_EQUAL, CLASS_GREATER, CLASS_LESS, CLASS_MINUS, CLASS_NOT_EQUAL,
    CLASS_OR_OR, CLASS_PERCENT, CLASS_PLUS, CLASS_SHIFT_LEFT, CLASS_SHIFT_RIGHT, CLASS_SLASH,
    CLASS_STAR,
};
use gv_lang::{Binary, LocalKind, Pure, Unary};
use std::alloc::Global;

#[tactic(auto, using(gv_lang::proofs::Trees::expressions))]
fn two(alloc: Global, sign: Binary, a: Pure, b: Pure) -> Result<Last, NoMemory>
    ensures { IfOk result (λ made. last_of made ≡ lower.Value (lang.Two sign (expr_of a) (expr_of b))) }
{
    let left = Box::new(alloc, a)?;
    let right = Box::new(alloc, b)?;
    Ok(Last::Value(Pure::Binary(sign, left, right)))
}

#[tactic(auto, using(gv_lang::proofs::Trees::expressions))]
fn not_equal(alloc: Global, a: Pure, b: Pure) -> Result<Last, NoMemory>
    ensures { IfOk result (λ made. last_of made
        ≡ lower.Value (lang.One unary.Not (lang.Two binary.Equal (expr_of a) (expr_of b)))) }
{
    let left = Box::new(alloc, a)?;
    let right = Box::new(alloc, b)?;
    let equal = Box::new(alloc, Pure::Binary(Binary::Equal, left, right))?;
    Ok(Last::Value(Pure::Unary(Unary::Not, equal)))
}

/// What an operator makes of two expressions: `a > b` is `b < a`, and `a != b` is `!(a == b)`.
pub fn operated(alloc: Global, sign: u8, a: Pure, b: Pure) -> Result<Last, NoMemory>
    ensures { IfOk result (λ made. last_of made ≡ lower.operated sign (expr_of a) (expr_of b)) }
{
    match sign {
        CLASS_SLASH => Ok(Last::Reads(LocalKind::Word, Reading::Div { a, b })),
        CLASS_PERCENT => Ok(Last::Reads(LocalKind::Word, Reading::Rem { a, b })),
        CLASS_OR_OR => two(alloc, Binary::Or, a, b),
        CLASS_AND_AND => two(alloc, Binary::And, a, b),
        CLASS_EQUAL => two(alloc, Binary::Equal, a, b),
        CLASS_NOT_EQUAL => not_equal(alloc, a, b),
        CLASS_LESS => two(alloc, Binary::Less, a, b),
        CLASS_AT_MOST => two(alloc, Binary::AtMost, a, b),
        CLASS_GREATER => two(alloc, Binary::Less, b, a),
        CLASS_AT_LEAST => two(alloc, Binary::AtMost, b, a),
        CLASS_PLUS => two(alloc, Binary::Plus, a, b),
        CLASS_MINUS => two(alloc, Binary::Minus, a, b),
        CLASS_BAR => two(alloc, Binary::BitOr, a, b),
        CLASS_CARET => two(alloc, Binary::BitXor, a, b),
        CLASS_STAR => two(alloc, Binary::Times, a, b),
        CLASS_SHIFT_LEFT => two(alloc, Binary::ShiftLeft, a, b),
        CLASS_SHIFT_RIGHT => two(alloc, Binary::ShiftRight, a, b),
        CLASS_AMP => two(alloc, Binary::BitAnd, a, b),
        CLASS_AMP_CARET => two(alloc, Binary::BitClear, a, b),
        _ => Ok(Last::Value(a)),
    }
}

#[tactic(auto, using(gv_lang::proofs::Trees::expressions))]
pub(crate) fn one_operand(alloc: Global, sign: u8, e: Pure) -> Result<Last, NoMemory>
    ensures { IfOk result (λ made. last_of made ≡ lower.Value (lower.one_operand sign (expr_of e))) }
{
    let inner = Box::new(alloc, e)?;
    if sign == CLASS_BANG {
        Ok(Last::Value(Pure::Unary(Unary::Not, inner)))
    } else {
        Ok(Last::Value(Pure::Unary(Unary::Complement, inner)))
    }
}
