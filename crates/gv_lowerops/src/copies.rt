//! Copies of expressions.

ghost use Rattle.std.specs.Prelude.{◌≡◌, IfOk};
ghost use Rattle.gv_lang.specs.Plain.{expr_of};

use gv_base::NoMemory;
use gv_lang::Pure;
use std::alloc::Global;

// An equal expression.
#[tactic(auto, using(gv_lang::proofs::Trees::expressions))]
pub(crate) fn copied(alloc: Global, e: &Pure) -> Result<Pure, NoMemory>
    ensures { IfOk result (λ made. expr_of made ≡ expr_of e.now) }
{
    match e {
        Pure::Word(n) => Ok(Pure::Word(*n)),
        Pure::Bool(b) => Ok(Pure::Bool(*b)),
        Pure::Nil => Ok(Pure::Nil),
        Pure::NilSlice => Ok(Pure::NilSlice),
        Pure::Local(x) => Ok(Pure::Local(*x)),
        Pure::Unary(operator, e) => {
            let part = Box::new(alloc, copied(alloc, e)?)?;
            Ok(Pure::Unary(*operator, part))
        }
        Pure::Binary(operator, a, b) => {
            let first = Box::new(alloc, copied(alloc, a)?)?;
            let second = Box::new(alloc, copied(alloc, b)?)?;
            Ok(Pure::Binary(*operator, first, second))
        }
    }
}
