//! What the table of calls holds under a number.

use gv_base::List;
use gv_terms::Value;

/// Where a call stood when it was last moved: called with these arguments, acted with this reply, or
/// answered. This project's own.
#[derive(Drop)]
pub enum Standing {
    Called { op: u32, args: List<Value> },
    Acted { reply: Value },
    Answered,
}

/// A call that was seen, and how many boots there had been when it was last moved.
/// This project's own.
#[derive(Drop)]
pub struct Seen {
    pub boots: u64,
    pub standing: Standing,
}
