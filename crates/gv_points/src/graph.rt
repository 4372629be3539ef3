//! Graphs of points.

use gv_base::{List, Place};
use gv_lang::Cmd;

/// The graphs of a program's procedures, in their order. This project's own.
#[derive(Debug, PartialEq, Eq, Drop)]
pub struct Graph {
    pub procs: List<ProcGraph>,
}

/// The graph of a procedure: its points in the order of the text, numbered from 1, and the number of that where it
/// begins. This project's own.
#[derive(Debug, PartialEq, Eq, Drop)]
pub struct ProcGraph {
    pub entry: u32,
    pub points: List<Point>,
}

/// A point: a command, an If and a Loop without their blocks, the place of its statement, the locals that it sets, and the
/// numbers of the points that may come next, of an If that of its true branch first. This project's own.
#[derive(Debug, PartialEq, Eq, Drop)]
pub struct Point {
    pub action: Cmd,
    pub place: Place,
    pub targets: List<u32>,
    pub next: List<u32>,
}
