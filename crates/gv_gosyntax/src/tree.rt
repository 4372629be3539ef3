//! Packages as they stand in a text: trees whose leaves are tokens, with no names resolved and no types known.
//!
//! A leaf tells where a node begins, what a name is spelled like and which operator stands there. The words are those of
//! the Go specification; what a struct, a type or a statement may be is this project's own profile of it.

use crate::lexeme::Lexeme;
use gv_base::List;
use sqlite_items::Boxed;

/// An operand or an operation on operands. It begins where its first leaf stands.
#[derive(Drop)]
pub enum Expr {
    /// A number, `true`, `false` or `nil`.
    Constant(Lexeme),
    Name(Lexeme),
    /// `( EXPR )`, and where the parenthesis stands.
    Paren(Lexeme, Boxed<Expr>),
    /// `len ( EXPR )`, `uint64 ( EXPR )` or `byte ( EXPR )`.
    Convert(Lexeme, Boxed<Expr>),
    /// `EXPR . NAME`
    Select(Boxed<Expr>, Lexeme),
    /// `EXPR [ EXPR ]`
    Index(Boxed<Expr>, Boxed<Expr>),
    /// `EXPR [ [EXPR] : [EXPR] ]`
    Slice(Boxed<Expr>, Option<Boxed<Expr>>, Option<Boxed<Expr>>),
    /// `! EXPR` or `^ EXPR`
    Unary(Lexeme, Boxed<Expr>),
    Binary(Boxed<Expr>, Lexeme, Boxed<Expr>),
}

/// What a pointer points to, and a slice of pointers: a struct by its name, or a mutex, at the word `sync`.
#[derive(Clone, Copy, Debug, PartialEq, Eq)]
pub enum Pointed {
    Named(Lexeme),
    Mutex(Lexeme),
}

/// A type. What stands beside its word is where it begins.
#[derive(Clone, Copy, Debug, PartialEq, Eq)]
pub enum GoType {
    /// `uint64`, `byte` or `bool`
    Word(Lexeme),
    /// `[] byte` or `[] uint64`
    Slice(Lexeme, Lexeme),
    /// `[] * POINTED`
    Pointers(Lexeme, Pointed),
    /// `map [ uint64 ] uint64`
    Map(Lexeme),
    /// `* POINTED`
    Pointer(Lexeme, Pointed),
    /// `disk . Block` or `twodisk . Block`
    Block(Lexeme),
}

/// `NAME : EXPR` in the literal of a struct.
#[derive(Drop)]
pub struct KeyedExpr {
    pub key: Lexeme,
    pub value: Expr,
}

/// What is called for what it does. It may have results, but it is no operand.
#[derive(Drop)]
pub enum Call {
    /// `FUNCTION ( ARGUMENTS )`, where the function is a name, maybe of something.
    Function(Expr, List<Expr>),
    /// `delete ( EXPR , EXPR )` or `append ( EXPR , EXPR )`
    Pair(Lexeme, Expr, Expr),
    /// `make ( TYPE [, LENGTH] )`
    Make(Lexeme, GoType, Option<Boxed<Expr>>),
    /// `new ( sync.Mutex )`
    New(Lexeme),
    /// `& NAME { FIELDS }`, and where the `&` stands.
    Literal(Lexeme, Lexeme, List<KeyedExpr>),
}

/// What stands on the right of an assignment or behind `return`.
#[derive(Drop)]
pub enum Right {
    Value(Expr),
    Result(Call),
}

/// A statement that may stand in the header of a `for`.
#[derive(Drop)]
pub enum Simple {
    /// `LEFT [, LEFT] := RIGHT`, or with `=`. A left side is a name, a selector or an index.
    Assign(List<Expr>, Lexeme, Right),
    /// `NAME ++` or `NAME --`
    Count(Expr, Lexeme),
    /// `NAME += EXPR`, and so on.
    Update(Expr, Lexeme, Expr),
    Call(Call),
}

/// `{ STATEMENTS }`, and where its braces stand.
#[derive(Drop)]
#[cycle(statements)]
pub struct Block {
    pub start: Lexeme,
    pub statements: List<Stmt>,
    pub end: Lexeme,
}

/// A statement. What stands beside its parts is its first word.
#[derive(Drop)]
#[cycle(statements)]
pub enum Stmt {
    /// Nothing before a semicolon.
    Empty,
    Simple(Simple),
    /// `var NAME TYPE [= RIGHT]`
    Var(Lexeme, Lexeme, GoType, Option<Right>),
    /// `if EXPR BLOCK [else ( IF | BLOCK )]`
    If(Lexeme, Expr, Block, Option<Boxed<Stmt>>),
    Block(Block),
    /// `break` or `continue`
    Jump(Lexeme),
    /// `for [FIRST ;] [CONDITION] [; POST] BLOCK`
    For(Lexeme, ForHeader, Block),
    /// `return [RIGHTS]`: of several ones, each is an operand.
    Return(Lexeme, List<Right>),
    /// `go func() BLOCK ()`
    Go(Lexeme, Block),
}

/// What stands between `for` and its block.
#[derive(Drop)]
pub struct ForHeader {
    pub first: Option<Simple>,
    pub condition: Option<Boxed<Expr>>,
    pub post: Option<Simple>,
}

/// `NAME {, NAME} TYPE`: parameters, or fields of a struct.
#[derive(Drop)]
pub struct Group {
    pub names: List<Lexeme>,
    pub kind: GoType,
}

/// `( NAME * STRUCT )` before the name of a method.
#[derive(Clone, Copy, Debug, PartialEq, Eq)]
pub struct Receiver {
    pub name: Lexeme,
    pub of: Lexeme,
}

/// `func [( NAME * STRUCT )] NAME ( PARAMETERS ) [RESULTS] BLOCK`
#[derive(Drop)]
pub struct Func {
    pub receiver: Option<Receiver>,
    pub name: Lexeme,
    pub params: List<Group>,
    pub results: List<GoType>,
    pub body: Block,
}

/// A declaration.
#[derive(Drop)]
pub enum Decl {
    /// `type NAME struct { FIELDS }`
    Struct(Lexeme, List<Group>),
    /// `const NAME [uint64] = EXPR`
    Const(Lexeme, Option<Lexeme>, Expr),
    Func(Func),
}

/// `package NAME`, the texts of each import, and the declarations.
#[derive(Drop)]
pub struct File {
    pub name: Lexeme,
    pub imports: List<List<Lexeme>>,
    pub decls: List<Decl>,
}
