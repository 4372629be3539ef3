//! What stands behind a point.

ghost use Rattle.std.specs.Prelude.{ℕ, Option as Maybe, Some};
ghost use Rattle.gv_gotypes.specs.Scopes.{Env};
ghost use Rattle.gv_gotypes.specs.Members.{Member as AnyMember};
ghost use Rattle.gv_gotypes.specs.Expressions as expr;
ghost use Rattle.gv_gosyntax.specs.declared.lexeme.Lexeme.{Lexeme as AnyLexeme};
ghost use Rattle.gv_gotyped.specs.First.{IsMade};
ghost use Rattle.gv_gotyped.specs.Parts.{IsMember, IsMemberOf};

use crate::fault::Fault;
use crate::names::run_of;
use crate::outcomes::Made;
use crate::places::{part_refusal, wrong_type};
use gv_base::Code;
use gv_gosyntax::Lexeme;
use gv_operands::{Class, GoType, Part};

/// A member of a package, of a struct or of a mutex as an operand: a constant, a field of a type if it has one, or what is no
/// operand, since it is called or a type.
#[derive(Clone, Copy, Debug, PartialEq, Eq)]
pub enum Member {
    Value(Option<Class>),
    Field(Option<GoType>),
    Other,
}

fn known_made(member: Member, start: u32) -> Made
    ensures { (m : AnyMember) (name : ℕ) → IsMember (Some member) (Some m) → IsMade result (expr.member_outcome (Some m) name start) }
{
    match member {
        Member::Value(class) => Made { class, first: None },
        Member::Field(kind) => Made {
            class: run_of(kind),
            first: None,
        },
        Member::Other => Made {
            class: None,
            first: wrong_type(start),
        },
    }
}

/// A member as an operand: `name` is where its name stands, and `start` where the operand begins.
pub fn member_made(member: Option<Member>, name: u32, start: u32) -> Made
    ensures { (m : Maybe AnyMember) → IsMember member m → IsMade result (expr.member_outcome m name start) }
{
    match member {
        Some(member) => known_made(member, start),
        None => Made {
            class: None,
            first: Some(Fault {
                start: name,
                code: Code::Undeclared,
            }),
        },
    }
}
