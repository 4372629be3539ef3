//! Sorts, terms, the store that makes them, their values, and terms as they were read.
#![tactic(auto)]

mod items;
mod laws;
mod lists;
mod live;
mod maps;
mod operate;
mod operator;
mod plan;
mod reading;
mod resolving;
mod scope;
mod sort;
mod sorting;
mod store;
mod stored;
mod term;
mod tree;
mod valuation;
mod value;
mod var;
mod words;

pub use laws::values_of_trees;
pub use operator::Operator;
pub use resolving::{ResolveFault, resolve};
pub use scope::Scope;
pub use sort::Sort;
pub use store::TermStore;
pub use term::{MakeFault, Node, Term};
pub use tree::{Head, RawTerm, TermTree};
pub use valuation::eval;
pub use value::{Binding, Env, NIL_SLICE, Value, copy_list, same_lists};
pub use var::Var;
