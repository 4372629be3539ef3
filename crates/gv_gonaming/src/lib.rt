//! The imports of a package, and the names that its declarations give it, in order of text.
#![tactic(auto)]

mod heads;
mod imports;

pub use heads::declare_heads;
pub use imports::declare_imports;
