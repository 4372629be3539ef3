//! Atoms nodes. Made by tools/script_nodes.py from script.grammar: edit that.
#![tactic(auto, unfolding(gv_scriptsyntax::specs::Nodes::arity))]

ghost use Rattle.std.specs.Prelude.{◌≡◌, List};
ghost use Rattle.gv_termread.specs.declared.generated.term_acts.Part.TheVariants.{Other as POther};
ghost use Rattle.gv_scriptsyntax.specs.declared.generated.script_acts.ScriptPart.TheVariants.{Atoms as PAtoms};
ghost use Rattle.gv_scriptsyntax.specs.declared.tree.Atom.{Atom as AnyAtom};
ghost use Rattle.gv_scriptsyntax.specs.Nodes as tree;
ghost use Rattle.gv_certnodes.specs.Places.{IsMadeBy};
ghost use Rattle.gv_commandnodes.specs.Atoms.{IsAtomsNode, IsSomeAtoms};

use gv_certnodes::{act_of, place_of};
use gv_scriptsyntax::Node;
use gv_scriptsyntax::generated::script_table::{
    ACT_ATOM, ACT_IN_ATOMS, ACT_NEXT_ATOM, ACT_NO_ATOMS,
};

/// Which act makes a part of the kind Atoms, with the tokens and the places of the parts that it takes.
#[derive(Clone, Copy)]
pub enum AtomsNode {
    NoAtoms,
    Atom { atoms: usize, next: usize },
    NextAtom { atoms: usize, next: usize },
    InAtoms { atoms: usize },
}

fn no_atoms_made(_text: &[u8], _nodes: &[Node], _at: usize) -> AtomsNode
    requires formed { tree.IsFormed _text.now _nodes.now }
    requires made { IsMadeBy _nodes.now _at ACT_NO_ATOMS }
    ensures { (whole : List AnyAtom) → tree.IsPartAt _text.now _nodes.now _at (POther (PAtoms whole)) → IsAtomsNode _text.now _nodes.now _at result whole }
{
    AtomsNode::NoAtoms
}

fn atom_made(text: &[u8], nodes: &[Node], at: usize) -> AtomsNode
    requires formed { tree.IsFormed text.now nodes.now }
    requires made { IsMadeBy nodes.now at ACT_ATOM }
    ensures { (whole : List AnyAtom) → tree.IsPartAt text.now nodes.now at (POther (PAtoms whole)) → IsAtomsNode text.now nodes.now at result whole }
{
    let atoms = place_of(text, nodes, at, ACT_ATOM, 1);
    let next = place_of(text, nodes, at, ACT_ATOM, 0);
    AtomsNode::Atom { atoms, next }
}

fn next_atom_made(text: &[u8], nodes: &[Node], at: usize) -> AtomsNode
    requires formed { tree.IsFormed text.now nodes.now }
    requires made { IsMadeBy nodes.now at ACT_NEXT_ATOM }
    ensures { (whole : List AnyAtom) → tree.IsPartAt text.now nodes.now at (POther (PAtoms whole)) → IsAtomsNode text.now nodes.now at result whole }
{
    let atoms = place_of(text, nodes, at, ACT_NEXT_ATOM, 2);
    let next = place_of(text, nodes, at, ACT_NEXT_ATOM, 0);
    AtomsNode::NextAtom { atoms, next }
}

fn in_atoms_made(text: &[u8], nodes: &[Node], at: usize) -> AtomsNode
    requires formed { tree.IsFormed text.now nodes.now }
    requires made { IsMadeBy nodes.now at ACT_IN_ATOMS }
    ensures { (whole : List AnyAtom) → tree.IsPartAt text.now nodes.now at (POther (PAtoms whole)) → IsAtomsNode text.now nodes.now at result whole }
{
    let atoms = place_of(text, nodes, at, ACT_IN_ATOMS, 1);
    AtomsNode::InAtoms { atoms }
}

/// The node at a place where a part of the kind Atoms stands.
pub fn atoms_node(text: &[u8], nodes: &[Node], at: usize) -> AtomsNode
    requires formed { tree.IsFormed text.now nodes.now }
    requires some { IsSomeAtoms text.now nodes.now at }
    ensures { (whole : List AnyAtom) → tree.IsPartAt text.now nodes.now at (POther (PAtoms whole)) → IsAtomsNode text.now nodes.now at result whole }
{
    match act_of(nodes, at) {
        ACT_NO_ATOMS => no_atoms_made(text, nodes, at),
        ACT_ATOM => atom_made(text, nodes, at),
        ACT_NEXT_ATOM => next_atom_made(text, nodes, at),
        ACT_IN_ATOMS => in_atoms_made(text, nodes, at),
        _ => unreachable!(),
    }
}
