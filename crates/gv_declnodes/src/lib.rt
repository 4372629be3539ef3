//! The tree of a declaration by its nodes: which act made the node of each part, and at which nodes the parts of it stand.
//!
//! gv_certnodes has the same of certificates and terms, gv_commandnodes of commands and blocks. All is made by tools/script_nodes.py
//! from the grammar of scripts.
#![tactic(auto)]

mod generated;

pub use generated::books_node::{BooksNode, books_node};
pub use generated::case_node::{CaseNode, case_node};
pub use generated::cases_node::{CasesNode, cases_node};
pub use generated::cuts_node::{CutsNode, cuts_node};
pub use generated::item_node::{ItemNode, item_node};
pub use generated::items_node::{ItemsNode, items_node};
pub use generated::maybe_inst_node::{MaybeInstNode, maybe_inst_node};
pub use generated::ops_node::{OpsNode, ops_node};
pub use generated::pars_node::{ParsNode, pars_node};
pub use generated::preds_node::{PredsNode, preds_node};
pub use generated::procs_node::{ProcsNode, procs_node};
pub use generated::script_node::{ScriptNode, script_node};
