//! Names as operands.

ghost use Rattle.std.specs.Prelude.{◌≡◌, Some, None, option_map};
ghost use Rattle.gv_operands.specs.declared.types.Class.TheVariants.{Run};
ghost use Rattle.gv_gosyntax.specs.declared.lexeme.Lexeme.{Lexeme as AnyLexeme};
ghost use Rattle.gv_gotypes.specs.Scopes.{Env, Package, found as found_in, name_in};
ghost use Rattle.gv_gotypes.specs.Expressions as expr;
ghost use Rattle.gv_gotypes.specs.Trees as tree;
ghost use Rattle.gv_gotyped.specs.First.{IsMade};
ghost use Rattle.gv_gotyped.specs.Operands.{IsOperand, IsConstantOf, IsConstantFor};

use crate::fault::Fault;
use crate::operands::made_at;
use crate::outcomes::{Made, Operand};
use crate::places::wrong_type;
use gv_base::Code;
use gv_gosyntax::Lexeme;
use gv_gotypes::{Entity, Found};
use gv_operands::{Class, GoType};

/// A variable by its type.
pub(crate) fn run_of(kind: Option<GoType>) -> Option<Class>
    ensures { result ≡ option_map Run kind }
{
    match kind {
        Some(kind) => Some(Class::Run(kind)),
        None => None,
    }
}

// What a name that stands for something is; `constant` is what that constant is, where it stands for one.
fn entity_made(at: u32, entity: Entity, constant: Option<Class>) -> Made
    ensures { (p : Package) → IsConstantOf p entity constant → IsMade result (expr.entity_outcome p at entity) }
{
    match entity {
        Entity::Variable(_, kind) => Made {
            class: run_of(kind),
            first: None,
        },
        Entity::ConstantOf(_) => Made {
            class: constant,
            first: None,
        },
        _ => Made {
            class: None,
            first: wrong_type(at),
        },
    }
}

// A name that stands for something.
fn found_made(at: u32, found: Found, constant: Option<Class>) -> Made
    ensures { (env : Env) (t : AnyLexeme) → t.start ≡ at → IsConstantOf env.declared found.entity constant
        → IsMade result (expr.found_outcome env t (Some found)) }
{
    entity_made(at, found.entity, constant)
}

// A name that stands for nothing.
fn undeclared_made(at: u32) -> Made
    ensures { (env : Env) (t : AnyLexeme) → t.start ≡ at → IsMade result (expr.found_outcome env t None) }
{
    Made {
        class: None,
        first: Some(Fault {
            start: at,
            code: Code::Undeclared,
        }),
    }
}

// What a name is.
fn name_made(at: u32, found: Option<Found>, constant: Option<Class>) -> Made
    ensures { (env : Env) (t : AnyLexeme) → t.start ≡ at → IsConstantFor env.declared found constant → IsMade result (expr.found_outcome env t found) }
{
    match found {
        Some(found) => found_made(at, found, constant),
        None => undeclared_made(at),
    }
}

/// A name, with what it stands for where it is used, and what that constant is where it stands for one.
pub fn name_operand(name: Lexeme, found: Option<Found>, constant: Option<Class>) -> Operand
    ensures { (env : Env) → found ≡ found_in env (name_in env.source name) → IsConstantFor env.declared found constant
        → IsOperand env (tree.Name name) result }
{
    made_at(name.start, name_made(name.start, found, constant))
}
