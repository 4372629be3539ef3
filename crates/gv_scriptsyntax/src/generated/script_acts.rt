//! The parts of the script language. Made by tools/grammar.py from script.grammar: edit that.

use crate::tree::{
    Arm, Atom, Block, Book, Case, Cert, Command, Cut, Factor, Filling, Have, Inst, Item, Op, Par,
    Pred, Proc, Script,
};
use gv_base::List;
use gv_termread::{PlacedTerm, SeenToken};

/// What a stretch of tokens was read as that no term has.
#[derive(Drop)]
pub enum ScriptPart {
    Names(List<SeenToken>),
    Pars(List<Par>),
    Terms(List<PlacedTerm>),
    MaybeTerm(Option<PlacedTerm>),
    Inst(Inst),
    MaybeInst(Option<Inst>),
    Atom(Atom),
    Atoms(List<Atom>),
    Item(Item),
    Items(List<Item>),
    Factor(Factor),
    Factors(List<Factor>),
    Cert(Cert),
    Haves(List<Have>),
    Filling(Filling),
    Command(Command),
    Commands(List<Command>),
    Ending(Option<SeenToken>),
    Block(Block),
    MaybeBlock(Option<Block>),
    Blocks(List<Block>),
    Arm(Arm),
    Arms(List<Arm>),
    Case(Case),
    Cases(List<Case>),
    Books(List<Book>),
    Preds(List<Pred>),
    Cuts(List<Cut>),
    Ops(List<Op>),
    Procs(List<Proc>),
    Script(Script),
}

pub const KIND_TOKEN: u8 = 0;

pub const KIND_TERM: u8 = 1;

pub const KIND_NAMES: u8 = 2;

pub const KIND_PARS: u8 = 3;

pub const KIND_TERMS: u8 = 4;

pub const KIND_MAYBE_TERM: u8 = 5;

pub const KIND_INST: u8 = 6;

pub const KIND_MAYBE_INST: u8 = 7;

pub const KIND_ATOM: u8 = 8;

pub const KIND_ATOMS: u8 = 9;

pub const KIND_ITEM: u8 = 10;

pub const KIND_ITEMS: u8 = 11;

pub const KIND_FACTOR: u8 = 12;

pub const KIND_FACTORS: u8 = 13;

pub const KIND_CERT: u8 = 14;

pub const KIND_HAVES: u8 = 15;

pub const KIND_FILLING: u8 = 16;

pub const KIND_COMMAND: u8 = 17;

pub const KIND_COMMANDS: u8 = 18;

pub const KIND_ENDING: u8 = 19;

pub const KIND_BLOCK: u8 = 20;

pub const KIND_MAYBE_BLOCK: u8 = 21;

pub const KIND_BLOCKS: u8 = 22;

pub const KIND_ARM: u8 = 23;

pub const KIND_ARMS: u8 = 24;

pub const KIND_CASE: u8 = 25;

pub const KIND_CASES: u8 = 26;

pub const KIND_BOOKS: u8 = 27;

pub const KIND_PREDS: u8 = 28;

pub const KIND_CUTS: u8 = 29;

pub const KIND_OPS: u8 = 30;

pub const KIND_PROCS: u8 = 31;

pub const KIND_SCRIPT: u8 = 32;

/// By act, the marks among them, how many parts it takes.
pub static TAKEN: [u8; 126] = [
    0, 0, 0, 0, 3, 2, 1, 1, 1, 3, 6, 4, 6, 8, 0, 2, 3, 3, 0, 4, 5, 3, 0, 2, 3, 3, 2, 0, 2, 2, 0, 2,
    4, 6, 8, 8, 6, 8, 6, 7, 5, 11, 1, 0, 2, 3, 3, 1, 1, 0, 3, 3, 2, 3, 0, 2, 3, 1, 3, 3, 2, 7, 8,
    5, 1, 0, 6, 3, 1, 3, 4, 3, 3, 2, 4, 4, 4, 3, 2, 4, 4, 5, 4, 4, 4, 7, 1, 3, 2, 2, 3, 5, 5, 5, 3,
    6, 2, 13, 2, 0, 2, 0, 2, 0, 2, 4, 0, 3, 3, 1, 0, 3, 3, 0, 2, 0, 9, 0, 7, 0, 12, 0, 5, 0, 13,
    15,
];

/// By act, the kind of the part that it makes; a mark makes none.
pub static MADE: [u8; 126] = [
    33, 33, 33, 33, 1, 1, 1, 1, 1, 1, 1, 1, 1, 1, 2, 2, 2, 2, 3, 3, 3, 3, 4, 4, 4, 4, 4, 5, 5, 6,
    7, 7, 8, 8, 8, 8, 8, 8, 8, 8, 8, 8, 8, 9, 9, 9, 9, 10, 10, 11, 11, 11, 12, 12, 13, 13, 13, 14,
    14, 14, 14, 14, 14, 14, 14, 15, 15, 16, 16, 16, 17, 17, 17, 17, 17, 17, 17, 17, 17, 17, 17, 17,
    17, 17, 17, 17, 17, 17, 17, 17, 17, 17, 17, 17, 17, 17, 17, 17, 2, 21, 21, 22, 22, 24, 24, 23,
    18, 18, 18, 19, 19, 20, 25, 26, 26, 27, 27, 28, 28, 29, 29, 30, 30, 31, 31, 32,
];
