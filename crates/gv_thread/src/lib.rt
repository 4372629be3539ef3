//! Threads of a program as they run: values of expressions, frames, and what a frame has still to do.
#![tactic(auto)]

mod control;
mod evaluation;
mod frame;
mod laws;
mod todo;

pub use evaluation::{value, values};
pub use frame::{Frame, Thread};
pub use laws::steps;
pub use todo::{Part, Todo};
