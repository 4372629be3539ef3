//! Specifications as they stand in a text. Places are numbers of bytes from the text's beginning on: what a reader tells of a
//! text is one fault, so it makes a line and a column of one of them, and no index of lines is made for the others.

use gv_base::List;
use gv_termread::PlacedTerm;
use gv_terms::Sort;

/// A name in a text: the bytes from `start` on that come before `end`.
#[derive(Clone, Copy, Debug, PartialEq, Eq)]
pub struct Span {
    pub start: u32,
    pub end: u32,
}

/// A sort, and where its word begins.
#[derive(Clone, Copy, Debug, PartialEq, Eq)]
pub struct PlacedSort {
    pub start: u32,
    pub sort: Sort,
}

/// A number, and where it begins.
#[derive(Clone, Copy, Debug, PartialEq, Eq)]
pub struct PlacedNumber {
    pub start: u32,
    pub value: u64,
}

/// How many disks there are, and the number of blocks that each is said to have.
#[derive(Clone, Copy, Debug, PartialEq, Eq)]
pub enum DisksTree {
    Zero,
    One(PlacedNumber),
    Two(PlacedNumber),
}

/// `field NAME : SORT [leased] = FIRST ;`
#[derive(Debug, PartialEq, Eq, Drop)]
pub struct FieldTree {
    pub name: Span,
    pub sort: PlacedSort,
    pub leased: bool,
    pub first: PlacedTerm,
}

/// `NAME : SORT` among the parameters of an operation.
#[derive(Clone, Copy, Debug, PartialEq, Eq)]
pub struct ParamTree {
    pub name: Span,
    pub sort: PlacedSort,
}

/// `pick NAME below BOUND ;`
#[derive(Debug, PartialEq, Eq, Drop)]
pub struct PickTree {
    pub name: Span,
    pub bound: PlacedTerm,
}

/// `NAME := TERM ;`
#[derive(Debug, PartialEq, Eq, Drop)]
pub struct AssignTree {
    pub name: Span,
    pub term: PlacedTerm,
}

/// `reply TERM ;`, and where the word `reply` begins.
#[derive(Debug, PartialEq, Eq, Drop)]
pub struct ReplyTree {
    pub start: u32,
    pub term: PlacedTerm,
}

/// `{ PICKS ASSIGNMENTS [REPLY] }`, and where its brace begins.
#[derive(Debug, PartialEq, Eq, Drop)]
pub struct BodyTree {
    pub start: u32,
    pub picks: List<PickTree>,
    pub assigns: List<AssignTree>,
    pub reply: Option<ReplyTree>,
}

/// `op NAME ( PARAMETERS ) [-> SORT] [where TERM] BODY`
#[derive(Debug, PartialEq, Eq, Drop)]
pub struct OpTree {
    pub name: Span,
    pub params: List<ParamTree>,
    pub returns: Option<PlacedSort>,
    pub allowed: Option<PlacedTerm>,
    pub body: BodyTree,
}

/// `spec NAME ; disks DISKS ; FIELDS OPERATIONS crash BODY`, and where the word `disks` begins.
///
/// Nothing is known yet of names, sorts and counts: a name may be declared twice or never, and any of the twelve words
/// of sorts may stand where a sort does.
#[derive(Debug, PartialEq, Eq, Drop)]
pub struct SpecTree {
    pub name: Span,
    pub disks_start: u32,
    pub disks: DisksTree,
    pub fields: List<FieldTree>,
    pub ops: List<OpTree>,
    pub crash: BodyTree,
}
