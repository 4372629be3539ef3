//! The methods of a package's structs, in order of text, and the fault of their names that is told.
#![tactic(auto)]

mod methods;

pub use methods::{declare_methods, receiver_struct};
