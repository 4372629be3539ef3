//! The store of a machine: heap, mutexes and disks, with each access to it.
#![tactic(auto)]

mod access;
mod disk;
mod grow;
mod made;
mod slices;
mod store;

pub use grow::Grow;
pub use slices::{longer, nil_slice, sub, whole_of};
pub use store::Store;
