//! Which nodes of a store a term stands on, and when each is read last.

ghost use Rattle.std.specs.Prelude.{◌≡◌, ◌<◌, None, length, IfOk, OnOk};
ghost use Rattle.std.specs.List.{All};
ghost use Rattle.gv_terms.specs.Evaluation.{AreSupplied, Await, Descends, awaited};
ghost use Rattle.gv_terms.specs.Store.{AreSound};

use crate::stored::Stored;
use crate::term::Term;
use gv_base::NoMemory;
use std::alloc::Global;
use std::collections::BTreeMap;

/// A node that is to be valued, and the last node that reads its value.
#[derive(Clone, Copy, Debug)]
pub struct Step {
    pub node: u64,
    pub last: u64,
}

// Lets the parts of a node wait.
fn wait_for(waiting: &mut BTreeMap<u64, u64>, parts: &[Term], node: u64) -> Result<(), NoMemory>
    requires { All (λ p. p.id < node) parts.now }
    ensures { OnOk result (Await node parts.now (awaited waiting.old) (awaited waiting.new)) }
{
    for part in parts {
        if !waiting.contains_key(&part.id) {
            waiting.insert(part.id, node)?;
        }
    }
    Ok(())
}

/// The nodes that a root stands on, the highest first, each once, without the root itself. It takes time
/// by their number and its logarithm.
pub fn steps(alloc: Global, nodes: &[Stored], root: u64) -> Result<Vec<Step>, NoMemory>
    requires within { root < length nodes.now }
    requires sound { AreSound nodes.now }
    ensures supplied { IfOk result (λ v. AreSupplied nodes.now root v.items (λ _. None)) }
    ensures descends { IfOk result (λ v. Descends v.items) }
    ensures below { IfOk result (λ v. All (λ s. s.node < root) v.items) }
{
    let mut steps = Vec::new(alloc);
    let mut waiting = BTreeMap::new(alloc);
    wait_for(&mut waiting, nodes[root as usize].parts.as_slice(), root)?;
    while let Some((node, last)) = waiting.pop_last() {
        wait_for(&mut waiting, nodes[node as usize].parts.as_slice(), node)?;
        steps.push(Step { node, last })?;
    }
    Ok(steps)
}
