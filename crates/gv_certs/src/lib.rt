//! Certificates: which shows which formula from which facts, and why one doesn't.
#![tactic(auto)]

mod cause;
mod cert;
mod fault;
mod laws;

pub use cause::Cause;
pub use cert::{Cert, Factored, Have};
pub use fault::RuleFault;
pub use laws::{proofs_are_true, proofs_hold_or_fail, worked_certificates};
