//! What operands of a package become, by the nodes of its tree: commands that read, and an expression or a last read.
//!
//! What it is, is defined in gv_lowering. What a walk asks of the locals of its procedure is the trait `Places`, and of the fields
//! of structs the trait `Fields`.
#![tactic(auto)]

mod copies;
mod draft;
mod fields;
mod forms;
mod kinds;
mod known;
mod last;
mod operands;
mod operators;
mod places;
mod settling;
mod short;

pub use draft::{Draft, KnownBound, KnownRead, KnownTail, Mark, Read, Tail};
pub use fields::{Field, Fields};
pub use kinds::{kind_if, kind_of};
pub use last::{Last, Reading};
pub use operands::{read_at, tail_at};
pub use operators::operated;
pub use places::Places;
pub use settling::settled;
