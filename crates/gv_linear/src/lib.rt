//! Whether rows of whole numbers contradict each other, told from a factor for each row.
#![tactic(auto)]

mod answer;
mod check;
mod columns;
mod row;
mod window;

pub use answer::Linear;
pub use check::check_linear;
pub use row::Row;
