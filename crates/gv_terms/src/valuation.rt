//! The value of a term under a valuation.

ghost use Rattle.std.specs.Prelude.{◌≡◌, ◌<◌, ◌&&◌, length, IfOk, OnOk};
ghost use Rattle.std.specs.List.{find};
ghost use Rattle.std.specs.Option.{option_copied, option_map};
ghost use Rattle.std.specs.Str.{bytes_eq};
ghost use Rattle.gv_terms.specs.Values.{has_sort, sort_of_value};
ghost use Rattle.gv_terms.specs.Ranges.{IsInRange, IsValuation};
ghost use Rattle.gv_terms.specs.Trees.{looked_up, head_value, sort_of, value_under};
ghost use Rattle.gv_terms.specs.Store.{tree_at, trees_of, part_count, AreSound};
ghost use Rattle.gv_terms.specs.Evaluation.{held_all, AreHeld, Loses};

use crate::live::{Live, keep, operated};
use crate::plan::steps;
use crate::sort::Sort;
use crate::store::TermStore;
use crate::stored::Stored;
use crate::term::Term;
use crate::tree::Head;
use crate::value::{Binding, Env, Value};
use gv_base::{Name, NoMemory};
use std::alloc::Global;
use std::collections::BTreeMap;

/// The value of a term: of a variable the first value of the valuation that has its name and sort,
/// or the zero of the sort where there is none. It has the term's sort, and is in range where the values of
/// the valuation are. It takes the time of the operators of the nodes that the term stands on, each node
/// once, and keeps a value until its last use; nothing recurses.
pub fn eval(alloc: Global, store: &TermStore, t: Term, env: &Env) -> Result<Value, NoMemory>
    requires { t.id < length store.now }
    ensures value { IfOk result (λ v. v ≡ value_under env.now (tree_at store.now t.id)) }
    ensures sort { IfOk result (λ v. sort_of_value v ≡ sort_of (tree_at store.now t.id)) }
    ensures range { IfOk result (λ v. IsValuation env.now → IsInRange v) }
{
    value_of(alloc, store.nodes(), t.id, env)
}

// The value of the node with a number.
fn value_of(alloc: Global, nodes: &[Stored], root: u64, env: &Env) -> Result<Value, NoMemory>
    requires within { root < length nodes.now }
    requires sound { AreSound nodes.now }
    ensures { IfOk result (λ v. v ≡ value_under env.now (tree_at (trees_of nodes.now) root)) }
{
    let mut steps = steps(alloc, nodes, root)?;
    let mut live = BTreeMap::new(alloc);
    while let Some(step) = steps.pop() {
        let node = &nodes[step.node as usize];
        let value = value_of_node(alloc, &mut live, node, step.node, env)?;
        keep(&mut live, step.node, value, step.last)?;
    }
    value_of_node(alloc, &mut live, &nodes[root as usize], root, env)
}

// The value of a node over those of its parts, which are given up where it reads them last.
fn value_of_node(
    alloc: Global,
    live: &mut Live,
    node: &Stored,
    number: u64,
    env: &Env,
) -> Result<Value, NoMemory>
    requires there { AreHeld live.old node.now.parts }
    requires counted { length node.now.parts ≡ part_count node.now.head }
    ensures value { IfOk result (λ v. v ≡ head_value env.now node.now.head (held_all live.old node.now.parts)) }
    ensures loses { OnOk result (Loses number live.old live.new) }
{
    match &node.head {
        Head::Variable { name, sort } => env.get(alloc, name, *sort),
        Head::Apply(operator) => { operated(alloc, live, *operator, node.parts.as_slice(), number) }
    }
}

impl Binding {
    // Whether the name and the sort of the value are these.
    fn is_for(&self, name: &[u8], sort: Sort) -> bool
        ensures { result ≡ (bytes_eq self.now.name name.now && has_sort self.now.value sort) }
    {
        self.name.as_slice() == name && self.value.has_sort(sort)
    }
}

// The value of the first that has this name and this sort.
fn value_for<'a>(bindings: &'a [Binding], name: &[u8], sort: Sort) -> Option<&'a Value>
    ensures { option_copied result ≡ option_map (λ b. b.value) (find (λ b. bytes_eq b.name name.now && has_sort b.value sort) bindings.now) }
{
    bindings
        .iter()
        .find(|b| b.is_for(name, sort))
        .map(|b| &b.value)
}

impl Env {
    /// The first value that has this name and this sort, or the zero of the sort.
    pub fn get(&self, alloc: Global, name: &Name, sort: Sort) -> Result<Value, NoMemory>
        ensures { IfOk result (λ v. v ≡ looked_up self.now name.now sort) }
    {
        match value_for(self.bindings.as_slice(), name.as_slice(), sort) {
            Some(value) => value.copy(alloc),
            None => Value::zero(alloc, sort),
        }
    }
}
