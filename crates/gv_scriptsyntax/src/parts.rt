//! Finds the parts of a node.

ghost use Rattle.std.specs.Prelude.{◌≡◌, ◌<◌, ◌+◌, List, length, drop, take, Some};
ghost use Rattle.gv_termread.specs.declared.generated.term_acts.Part.{Part as AnyPart};
ghost use Rattle.gv_scriptsyntax.specs.declared.generated.script_acts.ScriptPart.{ScriptPart};
ghost use Rattle.gv_scriptsyntax.specs.Nodes as tree;

use crate::building::start_of;
use crate::node::Node;

/// The place of a part of the node at `at`, where `number` of its parts come behind that part: 0 is the last one.
/// It takes time linear in `number`. This project's own.
pub fn part_of(text: &[u8], nodes: &[Node], at: usize, number: usize) -> usize
    requires formed { tree.IsFormed text.now nodes.now }
    requires within { at < length nodes.now }
    requires enough { tree.HasParts text.now nodes.now at (number + 1) }
    ensures before { result < at }
    ensures part { (parts : List (AnyPart ScriptPart)) → tree.built text.now (take at nodes.now) ≡ Some parts
        → tree.built text.now (take (result + 1) nodes.now) ≡ Some (drop number parts) }
{
    start_of(text, nodes, at, number) - 1
}
