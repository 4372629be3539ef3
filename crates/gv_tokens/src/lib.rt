//! Tokens of a Go text: the characters' stage of reading a package.
//!
//! Here stand Go's own forms: `form` tells what a piece is by its first bytes, `pieces` how long it is, `faults` whether it is
//! right, and `layout` which tokens it gives. How a text is cut into pieces and which fault comes first is the same for every
//! kind of text, and stands in gv_text. `reading` has the one pass.
#![tactic(auto)]

mod bytes;
mod chars;
mod comments;
mod faults;
mod form;
mod laws;
mod layout;
mod numbers;
mod pieces;
mod reading;
mod runes;
mod signs;
mod texts;
mod words;

pub use gv_base::{Kind, Token, place_of};
pub use laws::go_texts_are_decided;
pub use reading::tokens;
