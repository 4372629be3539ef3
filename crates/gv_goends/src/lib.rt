//! Which bodies of a package end in a return, by the nodes of its tree.
//!
//! What ends in a return is defined in gv_gotypes. Each walk goes over a list of statements from its end, in a loop, and calls
//! itself for what stands within braces alone, so no deeper than these are nested.
#![tactic(auto)]

mod blocks;
mod breaks;
mod ends;

pub use breaks::block_breaks;
pub use ends::block_ends;
