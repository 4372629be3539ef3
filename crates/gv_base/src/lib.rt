//! Values that every crate above names, the traits of the outside, and their implementations.
#![tactic(auto)]

mod answer;
mod answers;
mod lines;
mod list;
mod mem_sink;
mod memory;
mod name;
mod outside;
mod places;
mod real;
mod reason;
mod slice_val;
mod small;
mod steps;
mod sure;
mod token;
mod val;

pub use answer::Answer;
pub use answers::{Code, NoMemory, Place, Refusal};
pub use lines::Lines;
pub use list::List;
pub use mem_sink::MemSink;
pub use memory::{Held, MemFiles};
pub use name::Name;
pub use outside::{FetchFail, Files, PutFail, Sink};
pub use places::place_of;
pub use real::{DiskFiles, StdSink};
pub use reason::Reason;
pub use slice_val::SliceVal;
pub use small::{Part, Small, SmallOp, Turn};
pub use steps::Steps;
pub use sure::{SureFiles, SureSink};
pub use token::{Kind, Token};
pub use val::Val;
