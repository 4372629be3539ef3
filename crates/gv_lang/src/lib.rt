//! Programs as trees of commands, and what a step of a thread of one does.
#![tactic(auto)]

mod checks;
mod cmd;
mod counting;
mod kinds;
mod laws;
mod outline;
mod program;
mod pure;
mod shape;
mod typing;

pub use checks::well_shaped;
pub use cmd::Cmd;
pub use laws::worked;
pub use outline::Outline;
pub use program::{ItemKind, Local, LocalKind, Proc, Program, Struct};
pub use pure::{Binary, Pure, Unary};
