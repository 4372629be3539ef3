//! The small form of packages and scripts: tokens, names and sums.
#![tactic(auto)]

mod cursor;
mod names;
mod parameter_list;
mod part;
mod reading;
mod sum_reader;
mod token;

pub use cursor::Cursor;
pub use names::{distinct_from, distinct_operations};
pub use parameter_list::parameters;
pub use reading::{
    begins_with_sign, expect, expect_word, is_at_end, name, not_of_form, operation_name,
    pass_semicolon, word,
};
pub use sum_reader::{Sum, read_sum};
pub use token::{SmallToken, Taken};
