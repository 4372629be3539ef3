//! The tree of a command by its nodes: which act made the node of each part, and at which nodes the parts of it stand.
//!
//! gv_certnodes has the same of certificates and terms. All is made by tools/script_nodes.py from the grammar of scripts.
#![tactic(auto)]

mod generated;

pub use generated::arm_node::{ArmNode, arm_node};
pub use generated::arms_node::{ArmsNode, arms_node};
pub use generated::atom_node::{AtomNode, atom_node};
pub use generated::atoms_node::{AtomsNode, atoms_node};
pub use generated::block_node::{BlockNode, block_node};
pub use generated::blocks_node::{BlocksNode, blocks_node};
pub use generated::command_node::{CommandNode, command_node};
pub use generated::commands_node::{CommandsNode, commands_node};
pub use generated::ending_node::{EndingNode, ending_node};
pub use generated::filling_node::{FillingNode, filling_node};
pub use generated::inst_node::{InstNode, inst_node};
pub use generated::maybe_block_node::{MaybeBlockNode, maybe_block_node};
pub use generated::names_node::{NamesNode, names_node};
