//! The axioms of terms: schemata over parts, and their instances over a store's terms.
#![tactic(auto)]

mod building;
mod fault;
mod generated;
mod instances;
mod kind;
mod laws;
mod numbered;
mod parts;
mod row;
mod step;
mod terms;

pub use fault::AxiomFault;
pub use instances::instance;
pub use kind::Kind;
pub use laws::axioms_are_true;
pub use row::{Premise, Row, Span};
pub use step::Step;
pub use terms::Instance;
