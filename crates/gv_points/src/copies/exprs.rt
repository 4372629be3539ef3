//! Copies of expressions.

ghost use Rattle.std.specs.Prelude.{◌≡◌, IfOk};
ghost use Rattle.gv_lang.specs.Plain.{expr_of, exprs_of};

use gv_base::{List, NoMemory};
use gv_lang::Pure;
use std::alloc::Global;

/// An equal expression.
#[tactic(auto, using(gv_lang::proofs::Trees::expressions))]
pub(crate) fn copied(alloc: Global, e: &Pure) -> Result<Pure, NoMemory>
    ensures { IfOk result (λ made. expr_of made ≡ expr_of e.now) }
{
    match e {
        Pure::Word(n) => Ok(Pure::Word(*n)),
        Pure::Bool(b) => Ok(Pure::Bool(*b)),
        Pure::Nil => Ok(Pure::Nil),
        Pure::NilSlice => Ok(Pure::NilSlice),
        Pure::Local(x) => Ok(Pure::Local(*x)),
        Pure::Unary(operator, e) => {
            let part = Box::new(alloc, copied(alloc, e)?)?;
            Ok(Pure::Unary(*operator, part))
        }
        Pure::Binary(operator, a, b) => {
            let first = Box::new(alloc, copied(alloc, a)?)?;
            let second = Box::new(alloc, copied(alloc, b)?)?;
            Ok(Pure::Binary(*operator, first, second))
        }
    }
}

/// Equal expressions in their order.
pub(crate) fn all_copied(alloc: Global, es: &[Pure]) -> Result<List<Pure>, NoMemory>
    ensures { IfOk result (λ made. exprs_of made ≡ exprs_of es.now) }
{
    let mut made = List::new(alloc);
    let mut rest = es;
    while let [first, tail @ ..] = rest {
        made.push(copied(alloc, first)?)?;
        rest = tail;
    }
    Ok(made)
}
