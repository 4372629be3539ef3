//! Specifications from their texts: names resolved, sorts and counts tested.
//!
//! gv_specread gives the tree of a text. Here the tree is gone through once, from the front: each part becomes a part of a
//! specification, whose terms are of one store, and of the faults that are met the first one is kept (`told`). Where there is none,
//! the parts are a typed specification, which is proved and not tested. `names` has what names mean, `field_table` the fields by
//! their names, `terms` the terms, and `fields`, `params`, `bodies` and `ops` the parts.
#![tactic(auto)]

mod bodies;
mod field_table;
mod fields;
mod laws;
mod names;
mod ops;
mod params;
mod reading;
mod terms;
mod told;

pub use gv_atomic::Spec;
pub use laws::texts_spell_one_specification;
pub use reading::read_spec;
