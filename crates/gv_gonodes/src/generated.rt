//! Nodes by the kinds of their parts. Made by tools/nodes.py from gosyntax.grammar: edit that.

pub mod block_node;
pub mod bound_node;
pub mod call_node;
pub mod decl_node;
pub mod decls_node;
pub mod expr_node;
pub mod exprs_node;
pub mod file_node;
pub mod go_type_node;
pub mod groups_node;
pub mod imports_node;
pub mod keyed_node;
pub mod names_node;
pub mod part_node;
pub mod pointed_node;
pub mod receiver_node;
pub mod right_node;
pub mod rights_node;
pub mod simple_node;
pub mod stmt_node;
pub mod stmts_node;
pub mod types_node;
