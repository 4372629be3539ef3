//! Reads specifications: the grammar's stage, and terms of a store from what it reads.
//!
//! `tree` has what a text is read as: a tree of spans and places, with no names resolved and no sorts tested. `seen` gives
//! each token its class, and `reading` has the reader. `spec.grammar` is the grammar that the tables and acts in `generated`
//! are made from (docs/grammar.md); it includes that of terms, which stands in gv_termread.
#![tactic(auto)]

pub mod generated;
mod laws;
mod making;
mod reading;
mod seen;
mod tree;

pub use gv_termread::MAX_LEVELS;
pub use laws::tokens_spell_one_specification;
pub use reading::parse_spec;
pub use tree::{
    AssignTree, BodyTree, DisksTree, FieldTree, OpTree, ParamTree, PickTree, PlacedNumber,
    PlacedSort, ReplyTree, Span, SpecTree,
};
