//! The parts of the gosyntax language. Made by tools/grammar.py from gosyntax.grammar: edit that.

use crate::lexeme::Lexeme;
use crate::tree::{
    Block, Call, Decl, Expr, File, ForHeader, Func, GoType, Group, KeyedExpr, Pointed, Receiver,
    Right, Simple, Stmt,
};
use gv_base::List;
use sqlite_items::Boxed;

/// What a stretch of tokens was read as.
#[derive(Drop)]
pub enum Part {
    Token(Lexeme),
    Names(List<Lexeme>),
    Imports(List<List<Lexeme>>),
    Expr(Expr),
    Exprs(List<Expr>),
    Bound(Option<Boxed<Expr>>),
    Keyed(List<KeyedExpr>),
    Call(Call),
    Right(Right),
    Rights(List<Right>),
    Simple(Simple),
    Part(Option<Simple>),
    Stmt(Stmt),
    Stmts(List<Stmt>),
    Block(Block),
    Pointed(Pointed),
    GoType(GoType),
    Types(List<GoType>),
    Receiver(Option<Receiver>),
    Groups(List<Group>),
    Decl(Decl),
    Decls(List<Decl>),
    File(File),
}

pub const KIND_TOKEN: u8 = 0;

pub const KIND_NAMES: u8 = 1;

pub const KIND_IMPORTS: u8 = 2;

pub const KIND_EXPR: u8 = 3;

pub const KIND_EXPRS: u8 = 4;

pub const KIND_BOUND: u8 = 5;

pub const KIND_KEYED: u8 = 6;

pub const KIND_CALL: u8 = 7;

pub const KIND_RIGHT: u8 = 8;

pub const KIND_RIGHTS: u8 = 9;

pub const KIND_SIMPLE: u8 = 10;

pub const KIND_PART: u8 = 11;

pub const KIND_STMT: u8 = 12;

pub const KIND_STMTS: u8 = 13;

pub const KIND_BLOCK: u8 = 14;

pub const KIND_POINTED: u8 = 15;

pub const KIND_GO_TYPE: u8 = 16;

pub const KIND_TYPES: u8 = 17;

pub const KIND_RECEIVER: u8 = 18;

pub const KIND_GROUPS: u8 = 19;

pub const KIND_DECL: u8 = 20;

pub const KIND_DECLS: u8 = 21;

pub const KIND_FILE: u8 = 22;

/// By act, the marks among them, how many parts it takes.
pub static TAKEN: [u8; 86] = [
    0, 0, 0, 0, 0, 2, 2, 3, 1, 1, 3, 4, 3, 4, 5, 6, 2, 3, 0, 1, 0, 2, 2, 4, 6, 4, 6, 6, 0, 4, 2, 5,
    1, 1, 1, 3, 2, 3, 1, 0, 1, 0, 2, 2, 2, 3, 1, 3, 5, 3, 5, 1, 1, 2, 3, 7, 0, 2, 2, 2, 7, 1, 3, 1,
    3, 4, 5, 2, 3, 0, 3, 2, 0, 2, 2, 0, 5, 6, 4, 5, 8, 0, 4, 0, 3, 5,
];

/// By act, the kind of the part that it makes; a mark makes none.
pub static MADE: [u8; 86] = [
    23, 23, 23, 23, 1, 1, 1, 1, 3, 3, 3, 3, 3, 3, 3, 3, 3, 3, 5, 5, 4, 4, 4, 7, 7, 7, 7, 7, 6, 6,
    6, 7, 8, 8, 4, 10, 10, 10, 10, 11, 11, 13, 13, 13, 13, 14, 12, 12, 12, 12, 12, 12, 12, 12, 12,
    12, 9, 9, 9, 12, 12, 15, 15, 16, 16, 16, 16, 16, 16, 19, 19, 19, 17, 17, 17, 18, 18, 20, 20,
    20, 20, 2, 2, 21, 21, 22,
];
