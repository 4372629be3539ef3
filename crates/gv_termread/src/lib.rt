//! Reads terms of own texts.
//!
//! `term.grammar` is the grammar that the tables and acts in `generated` are made from (docs/grammar.md); grammars of texts
//! that hold terms include it. `seen` gives each token its class, `making` says what tokens stand for, and `reading` has the
//! readers of a term by itself.
#![tactic(auto)]

pub mod generated;
mod laws;
mod making;
mod numbers;
mod placed;
mod reading;
mod refusing;
mod seen;
mod token;

pub use laws::tokens_spell_one_term;
pub use numbers::number_of;
pub use placed::{PlacedTerm, Places};
pub use reading::{MAX_LEVELS, classes_of, placed_term, term};
pub use refusing::{fault_of, token_at};
pub use seen::{bytes_from, seen_as};
pub use token::SeenToken;
