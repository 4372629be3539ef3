//! Nodes by the kinds of their parts. Made by tools/script_nodes.py from script.grammar: edit that.

pub mod cert_node;
pub mod factor_node;
pub mod factors_node;
pub mod haves_node;
pub mod maybe_term_node;
pub mod term_node;
pub mod terms_node;
