//! What a script declares and names, without what it says of it.
//!
//! The rules of names and counts speak of nothing else. Each name is a token of the text. All of this is this project's own.

use crate::mention::Mention;
use gv_base::List;
use gv_scriptsyntax::Par;
use gv_termread::SeenToken;

/// A book, and the number of its cells.
#[derive(Clone, Copy, Debug, PartialEq, Eq)]
pub struct BookOutline {
    pub name: SeenToken,
    pub count: SeenToken,
}

/// A case of a predicate: its variables, and what stands in its heap.
#[derive(Drop)]
pub struct CaseOutline {
    pub vars: List<Par>,
    pub items: List<Mention>,
}

#[derive(Drop)]
pub struct PredOutline {
    pub name: SeenToken,
    pub params: List<Par>,
    pub cases: List<CaseOutline>,
}

/// A cut: the number of its point, its locals and variables, and what stands in its heap and its block.
#[derive(Drop)]
pub struct CutOutline {
    pub name: SeenToken,
    pub number: SeenToken,
    pub locals: List<SeenToken>,
    pub vars: List<Par>,
    pub items: List<Mention>,
    pub block: List<Mention>,
}

/// A block with its cuts.
#[derive(Drop)]
pub struct BodyOutline {
    pub block: List<Mention>,
    pub cuts: List<CutOutline>,
}

#[derive(Drop)]
pub struct OpOutline {
    pub name: SeenToken,
    pub body: BodyOutline,
}

/// A procedure: its own instance, where it has one, its variables, the names of its results, and what stands in its two heaps
/// and its body.
#[derive(Drop)]
pub struct ProcOutline {
    pub name: SeenToken,
    pub own: Option<Mention>,
    pub vars: List<Par>,
    pub results: List<SeenToken>,
    pub pre: List<Mention>,
    pub post: List<Mention>,
    pub body: BodyOutline,
}

/// A whole script; `crash` and `root` are the names behind these words.
#[derive(Drop)]
pub struct Outline {
    pub books: List<BookOutline>,
    pub preds: List<PredOutline>,
    pub crash: SeenToken,
    pub root: SeenToken,
    pub init: List<Mention>,
    pub recover: BodyOutline,
    pub ops: List<OpOutline>,
    pub procs: List<ProcOutline>,
}
