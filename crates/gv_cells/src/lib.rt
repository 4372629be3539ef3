//! One object of a store: its cells with their marks, its entries, or its lock, and each access to it.
#![tactic(auto)]

mod object;
mod reading;
mod writing;

pub use object::Object;
pub use reading::{
    are_bytes, byte_in, bytes_into, first_read, is_marked, run, unmarked, zero_like,
};
