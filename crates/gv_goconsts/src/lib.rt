//! The constants of a package: what each is by its declaration.
//!
//! A constant is looked at behind those that it names, so that each is looked at once. One that leads back to itself is nothing,
//! and so is what names it.
#![tactic(auto)]

mod constants;
mod rows;
mod settling;

pub use constants::{ConstantNode, settled};
pub use rows::rows_of;
pub use settling::settle_constants;
