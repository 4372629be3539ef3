//! Proof scripts as they stand in a text: trees whose leaves are tokens and terms, with no names resolved.
//!
//! A leaf tells where a node begins, what a name is spelled like, and which word stands there: the class of a token is its word's.
//! All of this is this project's own.

use gv_base::List;
use gv_termread::{PlacedTerm, SeenToken};
use sqlite_items::Boxed;

/// `NAME : SORT`
#[derive(Clone, Copy, Debug, PartialEq, Eq)]
pub struct Par {
    pub name: SeenToken,
    pub sort: SeenToken,
}

/// `NAME ( TERMS )`: a predicate with its terms.
#[derive(Drop)]
pub struct Inst {
    pub name: SeenToken,
    pub terms: List<PlacedTerm>,
}

/// What may be owned, or known for good. The first part is its word, which tells the atoms of one variant apart.
#[derive(Drop)]
pub enum Atom {
    /// `mutex`, `held`, `down` or `spare`, of a term.
    One(SeenToken, PlacedTerm),
    /// `slice`, `roslice`, `half` or `map`, of two terms.
    Two(SeenToken, PlacedTerm, PlacedTerm),
    /// `master` or `lease`, of a disk, a block's number and the block.
    Three(SeenToken, PlacedTerm, PlacedTerm, PlacedTerm),
    /// `cell` or `ro`: `( TERM , FIELD , TERM )`.
    Cell(SeenToken, PlacedTerm, SeenToken, PlacedTerm),
    /// `field` or `flease`: `( FIELD , TERM )`.
    Field(SeenToken, SeenToken, PlacedTerm),
    /// `bmaster` or `blease`: `( BOOK , TERM , TERM )`.
    Book(SeenToken, SeenToken, PlacedTerm, PlacedTerm),
    /// `lock ( TERM , INST )`
    Lock(SeenToken, PlacedTerm, Inst),
    /// `token ( TERM , OPERATION {, TERM} )`
    Token(SeenToken, PlacedTerm, SeenToken, List<PlacedTerm>),
    /// `done ( TERM [, TERM] )`
    Done(SeenToken, PlacedTerm, Option<PlacedTerm>),
    /// `each ( NAME in LOW .. HIGH [except ( TERMS )] : ATOM )`
    Each(SeenToken, SeenToken, PlacedTerm, PlacedTerm, List<PlacedTerm>, Boxed<Atom>),
    Instance(Inst),
}

/// What stands in a heap.
#[derive(Drop)]
pub enum Item {
    Fact(PlacedTerm),
    Held(Atom),
}

/// `[-] NUMBER TERM`, a known formula with its factor.
#[derive(Drop)]
pub struct Factor {
    pub minus: Option<SeenToken>,
    pub number: SeenToken,
    pub term: PlacedTerm,
}

/// `have TERM by CERT` within a certificate.
#[derive(Drop)]
#[cycle(certificates)]
pub struct Have {
    pub word: SeenToken,
    pub term: PlacedTerm,
    pub proof: Cert,
}

/// What shows that a formula holds. The first part is its word.
#[derive(Drop)]
#[cycle(certificates)]
pub enum Cert {
    /// `known` or `compute`
    Given(SeenToken),
    /// `axiom NUMBER ( TERMS )`
    Axiom(SeenToken, SeenToken, List<PlacedTerm>),
    /// `subst EQUATION [in TERM]`
    Subst(SeenToken, PlacedTerm, Option<PlacedTerm>),
    /// `contra TERM`
    Contra(SeenToken, PlacedTerm),
    /// `linear [ TERMS ] ( FACTORS )`
    Linear(SeenToken, List<PlacedTerm>, List<Factor>),
    /// `cases TERM ( CERT ) ( CERT )`
    Cases(SeenToken, PlacedTerm, Boxed<Cert>, Boxed<Cert>),
    /// `steps { {have TERM by CERT ;} CERT }`
    Steps(SeenToken, List<Have>, Boxed<Cert>),
    /// `?`, to be filled in; only as the whole certificate of a command.
    Hole(SeenToken),
}

/// The terms behind `fold`, or a hole in their place.
#[derive(Drop)]
pub enum Filling {
    Hole(SeenToken),
    Terms(List<PlacedTerm>),
}

/// Commands in braces, with the two braces.
#[derive(Drop)]
#[cycle(commands)]
pub struct Block {
    pub start: SeenToken,
    pub commands: List<Command>,
    pub end: SeenToken,
}

/// `{ ( NAMES ) COMMANDS }`
#[derive(Drop)]
#[cycle(commands)]
pub struct Arm {
    pub names: List<SeenToken>,
    pub block: Block,
}

/// A command. The first part is its word, which tells the commands of one variant apart.
#[derive(Drop)]
#[cycle(commands)]
pub enum Command {
    /// `fold INST NUMBER ( TERMS )`
    Fold(SeenToken, Inst, SeenToken, Filling),
    /// `unfold INST ( NAMES )`
    Unfold(SeenToken, Inst, List<SeenToken>),
    /// `unfold INST ARM {ARM}`
    UnfoldArms(SeenToken, Inst, List<Arm>),
    /// `copy`, `drop`, `freeze`, `called`, `lenof`, `none` or `one`, of an atom.
    OnAtom(SeenToken, Atom),
    /// `have TERM by CERT`
    Have(SeenToken, PlacedTerm, Cert),
    /// `let NAME = TERM`
    Let(SeenToken, SeenToken, PlacedTerm),
    /// `rewrite TERM to TERM`
    Rewrite(SeenToken, PlacedTerm, PlacedTerm),
    /// `absurd by CERT`
    Absurd(SeenToken, Cert),
    /// `clash ATOM {, ATOM}`
    Clash(SeenToken, List<Atom>),
    /// `cases TERM BLOCK BLOCK`
    Cases(SeenToken, PlacedTerm, Block, Block),
    /// `agree` or `join`: `ATOM , ATOM`.
    OnPair(SeenToken, Atom, Atom),
    /// `halves new TERM as NAME`
    HalvesNew(SeenToken, PlacedTerm, SeenToken),
    /// `halves set TERM TERM`
    HalvesSet(SeenToken, PlacedTerm, PlacedTerm),
    /// `take`, `put`, `split` or `part`: `ATOM at TERM`.
    At(SeenToken, Atom, PlacedTerm),
    /// `take` or `put`: `? at TERM`.
    AtHole(SeenToken, SeenToken, PlacedTerm),
    /// `map ( ATOMS ) to ( ATOMS ) with NAME BLOCK`
    Map(SeenToken, List<Atom>, List<Atom>, SeenToken, Block),
    /// `open` or `close`
    Alone(SeenToken),
    /// `sim TERM [with ( TERMS )]`
    Sim(SeenToken, PlacedTerm, List<PlacedTerm>),
    /// `share` or `crash`, with its block.
    OnBlock(SeenToken, Block),
    /// `boot [with ( TERMS )]`
    Boot(SeenToken, List<PlacedTerm>),
    /// `guard TERM INST`
    Guard(SeenToken, PlacedTerm, Inst),
    /// `book NAME TERM to TERM`
    SetBook(SeenToken, SeenToken, PlacedTerm, PlacedTerm),
    /// `forget TERM TERM to TERM`
    Forget(SeenToken, PlacedTerm, PlacedTerm, PlacedTerm),
    /// `step [with ( TERMS )] [as ( NAMES )] [during BLOCK] {BLOCK}`
    Step(SeenToken, List<PlacedTerm>, List<SeenToken>, Option<Block>, List<Block>),
    /// `to CUT ( TERMS )`
    To(SeenToken, SeenToken, List<PlacedTerm>),
    /// `merge ATOM , ATOM to TERM`
    Merge(SeenToken, Atom, Atom, PlacedTerm),
    /// `void bytes`, `void words` or `void refs`
    Void(SeenToken, SeenToken),
    /// `yield ATOM , ATOM to sl ( TERM , TERM , TERM )`
    Yield(SeenToken, Atom, Atom, PlacedTerm, PlacedTerm, PlacedTerm),
}

/// `case ( PARS ) HEAP`
#[derive(Drop)]
pub struct Case {
    pub vars: List<Par>,
    pub items: List<Item>,
}

/// `book NAME : SORT COUNT = TERM ;`
#[derive(Drop)]
pub struct Book {
    pub name: SeenToken,
    pub sort: SeenToken,
    pub count: SeenToken,
    pub first: PlacedTerm,
}

/// `pred NAME ( PARS ) { CASE {CASE} }`
#[derive(Drop)]
pub struct Pred {
    pub name: SeenToken,
    pub params: List<Par>,
    pub cases: List<Case>,
}

/// `cut NAME at NUMBER MODE locals ( NAMES ) vars ( PARS ) HEAP BLOCK`
#[derive(Drop)]
pub struct Cut {
    pub name: SeenToken,
    pub number: SeenToken,
    pub mode: SeenToken,
    pub locals: List<SeenToken>,
    pub vars: List<Par>,
    pub items: List<Item>,
    pub block: Block,
}

/// `op NAME BLOCK {CUT}`
#[derive(Drop)]
pub struct Op {
    pub name: SeenToken,
    pub block: Block,
    pub cuts: List<Cut>,
}

/// `proc NAME [own INST] vars ( PARS ) pre HEAP post ( NAMES ) HEAP BLOCK {CUT}`
#[derive(Drop)]
pub struct Proc {
    pub name: SeenToken,
    pub own: Option<Inst>,
    pub vars: List<Par>,
    pub pre: List<Item>,
    pub results: List<SeenToken>,
    pub post: List<Item>,
    pub block: Block,
    pub cuts: List<Cut>,
}

/// A whole script: books, predicates, `crash NAME ;`, `root NAME ;`, and the blocks.
#[derive(Drop)]
pub struct Script {
    pub books: List<Book>,
    pub preds: List<Pred>,
    pub crash_word: SeenToken,
    pub crash: SeenToken,
    pub root_word: SeenToken,
    pub root: SeenToken,
    pub init: Block,
    pub recover: Block,
    pub cuts: List<Cut>,
    pub ops: List<Op>,
    pub procs: List<Proc>,
}
