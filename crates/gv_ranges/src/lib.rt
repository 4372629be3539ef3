//! Commands that only rearrange what is owned: what is dropped, and numbers of ranges; each is sound beside every rest.
#![tactic(auto)]

mod laws;

pub use laws::{
    drops_sound, empty_ranges_sound, joins_sound, numbers_put_sound, numbers_taken_sound,
    ranges_of_one_sound, splits_sound,
};
