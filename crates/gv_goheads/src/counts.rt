//! Declarations by their numbers.

ghost use Rattle.std.specs.Prelude.{◌≡◌, suc, option_map, IfOk};
ghost use Rattle.gv_gotypes.specs.Declarations.{counted, declared_name, no_counts};
ghost use Rattle.gv_goheads.specs.Heads.{bare};
ghost use Rattle.gv_goheads.specs.Naming.{counts_of, named_as};

use crate::head::Head;
use gv_base::NoMemory;
use gv_gosyntax::Lexeme;
use gv_gotypes::Entity;

/// How many structs, constants and procedures stand before a declaration.
#[derive(Clone, Copy, Debug)]
pub struct Counted {
    pub structs: u32,
    pub constants: u32,
    pub procedures: u32,
}

/// A name that a declaration gives the package, and what it stands for.
#[derive(Clone, Copy, Debug)]
pub struct Naming {
    pub name: Lexeme,
    pub entity: Entity,
}

// The number behind one: the tables have no room for more.
fn next_of(number: u32) -> Result<u32, NoMemory>
    ensures { IfOk result (λ next. next ≡ suc number) }
{
    match number.checked_add(1) {
        Some(next) => Ok(next),
        None => Err(NoMemory),
    }
}

impl Counted {
    /// Nothing stands before.
    pub fn none() -> Counted
        ensures { counts_of result ≡ no_counts }
    {
        Counted {
            structs: 0,
            constants: 0,
            procedures: 0,
        }
    }

    /// One declaration more. There is no room for 2^32 of a kind.
    pub fn with(self, head: &Head) -> Result<Counted, NoMemory>
        ensures { IfOk result (λ more. counts_of more ≡ counted (counts_of self) (bare head.now)) }
    {
        match head {
            Head::Struct(_, _) => Ok(Counted {
                structs: next_of(self.structs)?,
                ..self
            }),
            Head::Const(_) => Ok(Counted {
                constants: next_of(self.constants)?,
                ..self
            }),
            Head::Func(_) => Ok(Counted {
                procedures: next_of(self.procedures)?,
                ..self
            }),
        }
    }

    /// The name that a declaration gives the package: a method gives it none.
    pub fn naming(self, head: &Head) -> Option<Naming>
        ensures { option_map named_as result ≡ declared_name (counts_of self) (bare head.now) }
    {
        match head {
            Head::Struct(name, _) => Some(Naming {
                name: *name,
                entity: Entity::StructOf(self.structs),
            }),
            Head::Const(name) => Some(Naming {
                name: *name,
                entity: Entity::ConstantOf(self.constants),
            }),
            Head::Func(func) => match func.receiver {
                Some(_) => None,
                None => Some(Naming {
                    name: func.name,
                    entity: Entity::ProcedureOf(self.procedures),
                }),
            },
        }
    }
}
