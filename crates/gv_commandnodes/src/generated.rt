//! Nodes by the kinds of their parts. Made by tools/script_nodes.py from script.grammar: edit that.

pub mod arm_node;
pub mod arms_node;
pub mod atom_node;
pub mod atoms_node;
pub mod block_node;
pub mod blocks_node;
pub mod command_node;
pub mod commands_node;
pub mod ending_node;
pub mod filling_node;
pub mod inst_node;
pub mod maybe_block_node;
pub mod names_node;
