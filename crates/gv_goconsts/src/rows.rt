//! The constants that each constant names.

ghost use Rattle.std.specs.Prelude.{◌≡◌, List as Seq, IfOk};
ghost use Rattle.gv_cycles.specs.Leading.{lists_of};
ghost use Rattle.gv_gosyntax.specs.Nodes as tree;
ghost use Rattle.gv_gotypes.specs.Constants.{ConstantTree};
ghost use Rattle.gv_goconsts.specs.Constants.{names_of, AreConstantsAt, AreSomeConstants};

use crate::constants::ConstantNode;
use gv_base::NoMemory;
use gv_gonamed::push_named;
use gv_gosyntax::Node;
use gv_gowalk::Names;
use std::alloc::Global;

/// For each constant the numbers of those that its expression names, where these names are seen.
pub fn rows_of<N: Names>(
    alloc: Global,
    names: &N,
    nodes: &[Node],
    constants: &[ConstantNode],
) -> Result<Vec<Vec<u32>>, NoMemory>
    requires formed { tree.IsFormed nodes.now }
    requires some { AreSomeConstants nodes.now constants.now }
    ensures { IfOk result (λ rows. (cs : Seq ConstantTree) → AreConstantsAt nodes.now constants.now cs → lists_of rows.items ≡ names_of (N.env names.now) cs) }
{
    let mut rows = Vec::new(alloc);
    for constant in constants {
        let mut named = Vec::new(alloc);
        push_named(names, nodes, constant.value, &mut named)?;
        rows.push(named)?;
    }
    Ok(rows)
}
