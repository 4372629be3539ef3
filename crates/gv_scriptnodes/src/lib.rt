//! The outline of a script, which is what it declares and names, from the nodes of its tree.
//!
//! `parts` finds the parts of a node, `names` has lists of names, parameters and terms, `mentions` what stands at a place and is
//! named, and `books`, `preds` and `blocks` the declarations; `outline` puts them together. Nothing is refused here: which names and
//! counts are right is told of an outline, in gv_scriptnames.
#![tactic(auto)]

mod blocks;
mod books;
mod last;
mod mentions;
mod names;
mod outline;
mod parts;
mod preds;

pub use blocks::{body_of, cuts_of, ops_of, procs_of};
pub use books::books_of;
pub use mentions::mentions_of;
pub use names::{count_terms, names_of, pars_of};
pub use outline::outline_of;
pub use parts::{act_of, first_of, place_of, token_of};
pub use preds::{cases_of, preds_of};
