//! Trees as lists of nodes.

use gv_termread::SeenToken;

/// A node of a tree in postfix order: each node stands directly behind the nodes of its parts, so the last one is the
/// tree's root. This project's own.
#[derive(Clone, Copy, Debug, PartialEq, Eq)]
pub enum Node {
    /// A token by itself.
    Token(SeenToken),
    /// What an act, one of the ACT_ constants, makes of the parts before it; the first node of these is at `from`, which is
    /// this node's own place where it has no parts.
    Made { act: u8, from: usize },
}

/// The tree of a script.
#[derive(Debug, Drop)]
pub struct Tree {
    /// Its nodes in postfix order.
    pub nodes: Vec<Node>,
}
