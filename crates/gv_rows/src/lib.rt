//! Rows of rules as data: a small language of premises and gifts, and what it tells that a row was applied.
#![tactic(auto)]

mod laws;

pub use laws::{
    disk_write_row_sound, item_row_sound, load_row_sound, rows_told, store_row_sound, worked_rows,
};
