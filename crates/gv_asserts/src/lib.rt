//! Path states as they run, and what is known in them: each stands for a path of the logic.
#![tactic(auto)]

mod atoms;
mod cx;
mod finding;
mod heap;
mod keeping;
mod key;
mod knowing;
mod laws;
mod quality;
mod stamped;

pub use atoms::Atoms;
pub use cx::{Contract, Cx, Owes, durable, persistent, token_free};
pub use finding::find;
pub use gv_certs::{Cause, Cert, RuleFault};
pub use gv_commands::{
    Arm, Arms, Atom, Block, Book, Case, Command, Decls, Each, Halves, Hole, Inst, Item, Numbered,
    Pred, ProcDecl, RawAtom, RawInst, Simple,
};
pub use heap::{At, Bracket, Heap, Mode};
pub use key::{Key, Kind};
pub use knowing::{absurd, have, known, resolve};
pub use laws::{facts_follow, predicates_are_noted, states_stay};
pub use stamped::Stamped;
