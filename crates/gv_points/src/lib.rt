//! The points of the procedures of a program.
#![tactic(auto)]

mod copies;
mod emission;
mod extents;
mod graph;

pub use emission::points;
pub use graph::{Graph, Point, ProcGraph};
