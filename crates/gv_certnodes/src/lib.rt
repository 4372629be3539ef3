//! The tree of a certificate by its nodes: which act made the node of each part, and at which nodes the parts of it stand.
//!
//! A walk over a tree takes one node after another apart and needs no memory for it. For each kind of part `specs/` says of
//! which tree what is told of a node is so. All but `parts` is made by tools/script_nodes.py from the grammar of scripts.
#![tactic(auto)]

mod generated;
mod parts;

pub use generated::cert_node::{CertNode, cert_node};
pub use generated::factor_node::{FactorNode, factor_node};
pub use generated::factors_node::{FactorsNode, factors_node};
pub use generated::haves_node::{HavesNode, haves_node};
pub use generated::maybe_term_node::{MaybeTermNode, maybe_term_node};
pub use generated::term_node::{TermNode, term_node};
pub use generated::terms_node::{TermsNode, terms_node};
pub use parts::{act_of, place_of, token_of};
