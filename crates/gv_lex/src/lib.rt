//! Tokens of this project's own texts: the characters' stage of reading specifications, schedules, histories, moves and
//! scripts.
//!
//! Here stand the own texts' forms: `form` tells what a piece is by its first bytes, `pieces` how long it is and whether it is
//! right, and `layout` which token it gives. How a text is cut into pieces and which fault comes first is the same for every
//! kind of text, and stands in gv_text. `reading` has the one pass, and `found` the fault of a grammar at a token. `term` of
//! gv_termread reads a term from one of the tokens on.
#![tactic(auto)]

mod bytes;
mod form;
mod found;
mod laws;
mod layout;
mod literals;
mod names;
mod numbers;
mod pieces;
mod reading;
mod signs;

pub use found::{found_in, unexpected_in};
pub use gv_base::{Kind, Token, place_of};
pub use gv_termread::{number_of, term};
pub use laws::own_texts_are_decided;
pub use reading::lex;
