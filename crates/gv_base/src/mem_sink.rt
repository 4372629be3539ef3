//! A sink in memory, which fails at the puts of a list.

ghost use Rattle.std.specs.Prelude.{◌≤◌, vec_len, vec_capacity};

use crate::list::List;

mod puts;

/// A sink in memory with room for so many bytes, which fails at the puts of a list. A put that goes
/// past the room writes what fits and fails. This project's own.
#[derive(Debug, Drop)]
pub struct MemSink {
    bytes: Vec<u8>,
    room: u64,
    fails: List<u64>,
    calls: u64,
    faults: u64,
    ghost within: { vec_len bytes ≤ room },
    ghost has_room: { room ≤ vec_capacity bytes },
}
