//! The grammar of packages as tables, and the trees that its acts build.
//!
//! `gosyntax.grammar` is the grammar that the tables and acts in `generated` are made from (docs/grammar.md); `tree` has what
//! a package is read as.
#![tactic(auto)]

mod building;
pub mod generated;
mod lexeme;
mod node;
mod parts;
mod tree;

pub use building::nodes_of;
pub use lexeme::Lexeme;
pub use node::{Node, Tree};
pub use parts::part_of;
pub use tree::{
    Block, Call, Decl, Expr, File, ForHeader, Func, GoType, Group, KeyedExpr, Pointed, Receiver,
    Right, Simple, Stmt,
};
