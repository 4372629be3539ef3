//! Nodes by the kinds of their parts. Made by tools/script_nodes.py from script.grammar: edit that.

pub mod books_node;
pub mod case_node;
pub mod cases_node;
pub mod cuts_node;
pub mod item_node;
pub mod items_node;
pub mod maybe_inst_node;
pub mod ops_node;
pub mod pars_node;
pub mod preds_node;
pub mod procs_node;
pub mod script_node;
