//! Schedules, as they are handed on.

use gv_base::{List, Place};
use gv_spec::Event;

/// A line of a schedule: its event, how often it happens, and where the line's first token stands.
/// This project's own.
#[derive(Debug, Drop)]
pub struct Line {
    pub event: Event,
    pub count: u32,
    pub place: Place,
}

/// The lines of a schedule in their order. The counts come to 1,000,000 at most. This project's own.
#[derive(Debug, Drop)]
pub struct Schedule {
    pub events: List<Line>,
}
