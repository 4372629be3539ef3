//! The grammar of proof scripts: as it is published, as tables, and the trees that its acts build.
//!
//! `specs/Language` has the published grammar. `script.grammar` is the grammar that the tables and acts in `generated` are made
//! from (docs/grammar.md); `tree` has what a script is read as, and `building` makes its list of nodes.
#![tactic(auto)]

mod building;
pub mod generated;
mod node;
mod parts;
mod tree;

pub use building::nodes_of;
pub use node::{Node, Tree};
pub use parts::part_of;
pub use tree::{
    Arm, Atom, Block, Book, Case, Cert, Command, Cut, Factor, Filling, Have, Inst, Item, Op, Par,
    Pred, Proc, Script,
};
