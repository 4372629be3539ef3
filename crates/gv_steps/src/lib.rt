//! Steps of a thread over thread and store, one function a command.
#![tactic(auto)]

mod after;
mod appending;
mod calls;
mod disks;
mod dispatch;
mod heap;
mod laws;
mod limit;
mod making;
mod maps;
mod mutexes;
mod operands;
mod outcomes;
mod plain;
mod slices;

pub use after::After;
pub use appending::append;
pub use calls::{call, give_back, spawn};
pub use disks::{disk_size, disk_write};
pub use dispatch::step;
pub use heap::{load, store};
pub use laws::{actions, bounds};
pub use making::{disk_read, disk_read_of, make_map, make_mutex, make_slice, make_struct};
pub use maps::{map_delete, map_get, map_put};
pub use mutexes::{lock, unlock};
pub use plain::{divide, length, local, remainder};
pub use slices::{at, get_word, part, put, put_word};
