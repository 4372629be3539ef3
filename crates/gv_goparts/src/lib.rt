//! What is found in a whole package, by the rules that it breaks: names, structs, methods, constants, functions, operations.
//!
//! All that is found is defined in gv_gotypes, declaration by declaration. Here it is taken apart by rules, so that each can be
//! looked at by a pass of its own; the earliest fault of the parts is that of the package.
#![tactic(auto)]

mod parts;

pub use parts::PartFaults;
