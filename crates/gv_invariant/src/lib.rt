//! The invariant of whole runs, over the machine, the definitions of seats and the record beside the state.
#![tactic(auto)]

mod laws;

pub use laws::{
    crashes_are_survived, disks_may_fail, histories_are_explained, runs_begin, steps_are_kept,
};
