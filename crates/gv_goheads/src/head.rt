//! Declarations without bodies and values.

use gv_base::List;
use gv_gosyntax::{GoType, Group, Lexeme, Receiver};

/// `func [( NAME * STRUCT )] NAME ( PARAMETERS ) [RESULTS]`
#[derive(Drop)]
pub struct FuncHead {
    pub receiver: Option<Receiver>,
    pub name: Lexeme,
    pub params: List<Group>,
    pub results: List<GoType>,
}

/// What a declaration is without its body or its value.
#[derive(Drop)]
pub enum Head {
    /// `type NAME struct { FIELDS }`
    Struct(Lexeme, List<Group>),
    /// `const NAME`
    Const(Lexeme),
    Func(FuncHead),
}
