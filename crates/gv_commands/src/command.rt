//! Commands of a script, and their blocks.

use crate::atom::{RawAtom, RawInst};
use gv_base::{List, Name};
use gv_certs::Cert;
use gv_terms::{RawTerm, Sort};

/// Commands in braces, and the number of the closing brace. This project's own.
#[cycle(commands)]
#[derive(Debug, Drop)]
pub struct Block {
    pub items: List<Numbered>,
    pub end: u32,
}

/// A command with its number, by the order of the text from 1 on. This project's own.
#[cycle(commands)]
#[derive(Debug, Drop)]
pub struct Numbered {
    pub number: u32,
    pub command: Command,
}

/// What goes on in one case of a predicate that is unfolded: names for the case's variables, and commands. This project's own.
#[cycle(commands)]
#[derive(Debug, Drop)]
pub struct Arm {
    pub names: List<Name>,
    pub block: Block,
}

/// How a predicate is unfolded: its one case with names for its variables, and the commands go on behind; or an arm for each case.
/// This project's own.
#[cycle(commands)]
#[derive(Debug, Drop)]
pub enum Arms {
    Here(List<Name>),
    Each(List<Arm>),
}

/// What becomes of halves. This project's own.
#[derive(Debug, Drop)]
pub enum Halves {
    /// Two halves of a value, under a new name.
    New { value: RawTerm, name: Name },
    /// The two halves under a name get a value.
    Set { name: RawTerm, value: RawTerm },
}

/// A command with a hole. This project's own.
#[derive(Debug, Drop)]
pub enum Hole {
    /// `have F by ?`
    Have { goal: RawTerm },
    /// `absurd by ?`
    Absurd,
    /// `fold P(..) N (?)`
    Fold { inst: RawInst, case: u64 },
    /// `take ? at T`
    Take { at: RawTerm },
    /// `put ? at T`
    Put { at: RawTerm },
}

/// A command of a script, with its parts in the order in which it is written. This project's own.
#[cycle(commands)]
#[derive(Debug, Drop)]
pub enum Command {
    /// The case is counted from 1.
    Fold {
        inst: RawInst,
        case: u64,
        terms: List<RawTerm>,
    },
    Unfold {
        inst: RawInst,
        arms: Arms,
    },
    Copy(RawAtom),
    Drop(RawAtom),
    Freeze(RawAtom),
    Called(RawAtom),
    Lenof(RawAtom),
    Have {
        goal: RawTerm,
        cert: Cert,
    },
    Let {
        name: Name,
        term: RawTerm,
    },
    Rewrite {
        from: RawTerm,
        to: RawTerm,
    },
    Absurd {
        cert: Cert,
    },
    Clash(List<RawAtom>),
    Cases {
        formula: RawTerm,
        holds: Block,
        fails: Block,
    },
    Agree(RawAtom, RawAtom),
    Halves(Halves),
    Take {
        atom: RawAtom,
        at: RawTerm,
    },
    Put {
        atom: RawAtom,
        at: RawTerm,
    },
    Split {
        atom: RawAtom,
        at: RawTerm,
    },
    Join(RawAtom, RawAtom),
    None(RawAtom),
    One(RawAtom),
    Map {
        from: List<RawAtom>,
        to: List<RawAtom>,
        index: Name,
        block: Block,
    },
    Open,
    Close,
    /// A call acts, with what its operation picks.
    Sim {
        call: RawTerm,
        choices: List<RawTerm>,
    },
    Share(Block),
    /// Its own number, by which a path names the block that stands.
    Crash {
        number: u32,
        block: Block,
    },
    /// With what the crash step picks.
    Boot {
        choices: List<RawTerm>,
    },
    Guard {
        mutex: RawTerm,
        guarded: RawInst,
    },
    Book {
        book: u32,
        place: RawTerm,
        value: RawTerm,
    },
    Forget {
        disk: RawTerm,
        address: RawTerm,
        block: RawTerm,
    },
    /// The terms after `with`, the names after `as`, the block after `during`, and the blocks behind it.
    Step {
        terms: List<RawTerm>,
        names: List<Name>,
        during: Option<Block>,
        blocks: List<Block>,
    },
    /// A cut, by its place among those of its procedure.
    To {
        cut: u32,
        terms: List<RawTerm>,
    },
    Part {
        atom: RawAtom,
        at: RawTerm,
    },
    Merge {
        first: RawAtom,
        second: RawAtom,
        to: RawTerm,
    },
    /// The sort of the empty list: bytes, words or references.
    Void {
        items: Sort,
    },
    /// To the slice `slice`, from `low` to `high`.
    Yield {
        first: RawAtom,
        second: RawAtom,
        slice: RawTerm,
        low: RawTerm,
        high: RawTerm,
    },
    Hole(Hole),
}
