//! The tree of a package by its nodes: which act made the node of each part, and at which nodes the parts of it stand.
//!
//! A walk over a tree takes one node after another apart and needs no memory for it. For each kind of part `specs/` says of
//! which tree what is told of a node is so. All but `parts` is made by tools/nodes.py from the grammar of packages.
#![tactic(auto)]

mod generated;
mod parts;

pub use generated::block_node::{BlockNode, block_node};
pub use generated::bound_node::{BoundNode, bound_node};
pub use generated::call_node::{CallNode, call_node};
pub use generated::decl_node::{DeclNode, decl_node};
pub use generated::decls_node::{DeclsNode, decls_node};
pub use generated::expr_node::{ExprNode, expr_node};
pub use generated::exprs_node::{ExprsNode, exprs_node};
pub use generated::file_node::{FileNode, file_node};
pub use generated::go_type_node::{GoTypeNode, go_type_node};
pub use generated::groups_node::{GroupsNode, groups_node};
pub use generated::imports_node::{ImportsNode, imports_node};
pub use generated::keyed_node::{KeyedNode, keyed_node};
pub use generated::names_node::{NamesNode, names_node};
pub use generated::part_node::{PartNode, part_node};
pub use generated::pointed_node::{PointedNode, pointed_node};
pub use generated::receiver_node::{ReceiverNode, receiver_node};
pub use generated::right_node::{RightNode, right_node};
pub use generated::rights_node::{RightsNode, rights_node};
pub use generated::simple_node::{SimpleNode, simple_node};
pub use generated::stmt_node::{StmtNode, stmt_node};
pub use generated::stmts_node::{StmtsNode, stmts_node};
pub use generated::types_node::{TypesNode, types_node};
pub use parts::{act_of, place_of, token_of};
