//! The members of the packages that a package may import, and of a mutex, by their names.
#![tactic(auto)]

mod libraries;
mod members;
mod rows;

pub use libraries::library_named;
pub use members::{called_of_library, called_of_mutex, library_member, mutex_member};
