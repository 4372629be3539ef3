//! Blocks by their nodes.

ghost use Rattle.std.specs.Prelude.{◌≡◌};
ghost use Rattle.gv_goends.specs.Trees.{statements_by};

use gv_gonodes::BlockNode;

/// Where the node of a block's statements stands.
pub(crate) fn statements_in(node: BlockNode) -> usize
    ensures { result ≡ statements_by node }
{
    match node {
        BlockNode::Block {
            start: _,
            statements,
            end: _,
        } => statements,
    }
}
