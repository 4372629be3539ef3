//! Atom nodes. Made by tools/script_nodes.py from script.grammar: edit that.
#![tactic(auto, unfolding(gv_scriptsyntax::specs::Nodes::arity))]

ghost use Rattle.std.specs.Prelude.{◌≡◌};
ghost use Rattle.gv_termread.specs.declared.generated.term_acts.Part.TheVariants.{Other as POther};
ghost use Rattle.gv_scriptsyntax.specs.declared.generated.script_acts.ScriptPart.TheVariants.{Atom as PAtom};
ghost use Rattle.gv_scriptsyntax.specs.declared.tree.Atom.{Atom as AnyAtom};
ghost use Rattle.gv_scriptsyntax.specs.Nodes as tree;
ghost use Rattle.gv_certnodes.specs.Places.{IsMadeBy};
ghost use Rattle.gv_commandnodes.specs.Atom.{IsAtomNode, IsSomeAtom};

use gv_certnodes::{act_of, place_of, token_of};
use gv_scriptsyntax::Node;
use gv_scriptsyntax::generated::script_table::{
    ACT_BOOK_ATOM, ACT_CELL_ATOM, ACT_DONE_ATOM, ACT_EACH_ATOM, ACT_FIELD_ATOM, ACT_INST_ATOM,
    ACT_LOCK_ATOM, ACT_ONE_ATOM, ACT_THREE_ATOM, ACT_TOKEN_ATOM, ACT_TWO_ATOM,
};
use gv_termread::SeenToken;

/// Which act makes a part of the kind Atom, with the tokens and the places of the parts that it takes.
#[derive(Clone, Copy)]
pub enum AtomNode {
    OneAtom {
        word: SeenToken,
        a: usize,
    },
    TwoAtom {
        word: SeenToken,
        a: usize,
        b: usize,
    },
    ThreeAtom {
        word: SeenToken,
        a: usize,
        b: usize,
        c: usize,
    },
    CellAtom {
        word: SeenToken,
        a: usize,
        name: SeenToken,
        b: usize,
    },
    FieldAtom {
        word: SeenToken,
        name: SeenToken,
        a: usize,
    },
    BookAtom {
        word: SeenToken,
        name: SeenToken,
        a: usize,
        b: usize,
    },
    LockAtom {
        word: SeenToken,
        a: usize,
        inst: usize,
    },
    TokenAtom {
        word: SeenToken,
        a: usize,
        name: SeenToken,
        terms: usize,
    },
    DoneAtom {
        word: SeenToken,
        a: usize,
        reply: usize,
    },
    EachAtom {
        word: SeenToken,
        name: SeenToken,
        low: usize,
        high: usize,
        except: usize,
        body: usize,
    },
    InstAtom {
        inst: usize,
    },
}

fn one_atom_made(text: &[u8], nodes: &[Node], at: usize) -> AtomNode
    requires formed { tree.IsFormed text.now nodes.now }
    requires made { IsMadeBy nodes.now at ACT_ONE_ATOM }
    ensures { (whole : AnyAtom) → tree.IsPartAt text.now nodes.now at (POther (PAtom whole)) → IsAtomNode text.now nodes.now at result whole }
{
    let word = token_of(text, nodes, at, ACT_ONE_ATOM, 3);
    let a = place_of(text, nodes, at, ACT_ONE_ATOM, 1);
    AtomNode::OneAtom { word, a }
}

fn two_atom_made(text: &[u8], nodes: &[Node], at: usize) -> AtomNode
    requires formed { tree.IsFormed text.now nodes.now }
    requires made { IsMadeBy nodes.now at ACT_TWO_ATOM }
    ensures { (whole : AnyAtom) → tree.IsPartAt text.now nodes.now at (POther (PAtom whole)) → IsAtomNode text.now nodes.now at result whole }
{
    let word = token_of(text, nodes, at, ACT_TWO_ATOM, 5);
    let a = place_of(text, nodes, at, ACT_TWO_ATOM, 3);
    let b = place_of(text, nodes, at, ACT_TWO_ATOM, 1);
    AtomNode::TwoAtom { word, a, b }
}

fn three_atom_made(text: &[u8], nodes: &[Node], at: usize) -> AtomNode
    requires formed { tree.IsFormed text.now nodes.now }
    requires made { IsMadeBy nodes.now at ACT_THREE_ATOM }
    ensures { (whole : AnyAtom) → tree.IsPartAt text.now nodes.now at (POther (PAtom whole)) → IsAtomNode text.now nodes.now at result whole }
{
    let word = token_of(text, nodes, at, ACT_THREE_ATOM, 7);
    let a = place_of(text, nodes, at, ACT_THREE_ATOM, 5);
    let b = place_of(text, nodes, at, ACT_THREE_ATOM, 3);
    let c = place_of(text, nodes, at, ACT_THREE_ATOM, 1);
    AtomNode::ThreeAtom { word, a, b, c }
}

fn cell_atom_made(text: &[u8], nodes: &[Node], at: usize) -> AtomNode
    requires formed { tree.IsFormed text.now nodes.now }
    requires made { IsMadeBy nodes.now at ACT_CELL_ATOM }
    ensures { (whole : AnyAtom) → tree.IsPartAt text.now nodes.now at (POther (PAtom whole)) → IsAtomNode text.now nodes.now at result whole }
{
    let word = token_of(text, nodes, at, ACT_CELL_ATOM, 7);
    let a = place_of(text, nodes, at, ACT_CELL_ATOM, 5);
    let name = token_of(text, nodes, at, ACT_CELL_ATOM, 3);
    let b = place_of(text, nodes, at, ACT_CELL_ATOM, 1);
    AtomNode::CellAtom { word, a, name, b }
}

fn field_atom_made(text: &[u8], nodes: &[Node], at: usize) -> AtomNode
    requires formed { tree.IsFormed text.now nodes.now }
    requires made { IsMadeBy nodes.now at ACT_FIELD_ATOM }
    ensures { (whole : AnyAtom) → tree.IsPartAt text.now nodes.now at (POther (PAtom whole)) → IsAtomNode text.now nodes.now at result whole }
{
    let word = token_of(text, nodes, at, ACT_FIELD_ATOM, 5);
    let name = token_of(text, nodes, at, ACT_FIELD_ATOM, 3);
    let a = place_of(text, nodes, at, ACT_FIELD_ATOM, 1);
    AtomNode::FieldAtom { word, name, a }
}

fn book_atom_made(text: &[u8], nodes: &[Node], at: usize) -> AtomNode
    requires formed { tree.IsFormed text.now nodes.now }
    requires made { IsMadeBy nodes.now at ACT_BOOK_ATOM }
    ensures { (whole : AnyAtom) → tree.IsPartAt text.now nodes.now at (POther (PAtom whole)) → IsAtomNode text.now nodes.now at result whole }
{
    let word = token_of(text, nodes, at, ACT_BOOK_ATOM, 7);
    let name = token_of(text, nodes, at, ACT_BOOK_ATOM, 5);
    let a = place_of(text, nodes, at, ACT_BOOK_ATOM, 3);
    let b = place_of(text, nodes, at, ACT_BOOK_ATOM, 1);
    AtomNode::BookAtom { word, name, a, b }
}

fn lock_atom_made(text: &[u8], nodes: &[Node], at: usize) -> AtomNode
    requires formed { tree.IsFormed text.now nodes.now }
    requires made { IsMadeBy nodes.now at ACT_LOCK_ATOM }
    ensures { (whole : AnyAtom) → tree.IsPartAt text.now nodes.now at (POther (PAtom whole)) → IsAtomNode text.now nodes.now at result whole }
{
    let word = token_of(text, nodes, at, ACT_LOCK_ATOM, 5);
    let a = place_of(text, nodes, at, ACT_LOCK_ATOM, 3);
    let inst = place_of(text, nodes, at, ACT_LOCK_ATOM, 1);
    AtomNode::LockAtom { word, a, inst }
}

fn token_atom_made(text: &[u8], nodes: &[Node], at: usize) -> AtomNode
    requires formed { tree.IsFormed text.now nodes.now }
    requires made { IsMadeBy nodes.now at ACT_TOKEN_ATOM }
    ensures { (whole : AnyAtom) → tree.IsPartAt text.now nodes.now at (POther (PAtom whole)) → IsAtomNode text.now nodes.now at result whole }
{
    let word = token_of(text, nodes, at, ACT_TOKEN_ATOM, 6);
    let a = place_of(text, nodes, at, ACT_TOKEN_ATOM, 4);
    let name = token_of(text, nodes, at, ACT_TOKEN_ATOM, 2);
    let terms = place_of(text, nodes, at, ACT_TOKEN_ATOM, 1);
    AtomNode::TokenAtom {
        word,
        a,
        name,
        terms,
    }
}

fn done_atom_made(text: &[u8], nodes: &[Node], at: usize) -> AtomNode
    requires formed { tree.IsFormed text.now nodes.now }
    requires made { IsMadeBy nodes.now at ACT_DONE_ATOM }
    ensures { (whole : AnyAtom) → tree.IsPartAt text.now nodes.now at (POther (PAtom whole)) → IsAtomNode text.now nodes.now at result whole }
{
    let word = token_of(text, nodes, at, ACT_DONE_ATOM, 4);
    let a = place_of(text, nodes, at, ACT_DONE_ATOM, 2);
    let reply = place_of(text, nodes, at, ACT_DONE_ATOM, 1);
    AtomNode::DoneAtom { word, a, reply }
}

fn each_atom_made(text: &[u8], nodes: &[Node], at: usize) -> AtomNode
    requires formed { tree.IsFormed text.now nodes.now }
    requires made { IsMadeBy nodes.now at ACT_EACH_ATOM }
    ensures { (whole : AnyAtom) → tree.IsPartAt text.now nodes.now at (POther (PAtom whole)) → IsAtomNode text.now nodes.now at result whole }
{
    let word = token_of(text, nodes, at, ACT_EACH_ATOM, 10);
    let name = token_of(text, nodes, at, ACT_EACH_ATOM, 8);
    let low = place_of(text, nodes, at, ACT_EACH_ATOM, 6);
    let high = place_of(text, nodes, at, ACT_EACH_ATOM, 4);
    let except = place_of(text, nodes, at, ACT_EACH_ATOM, 3);
    let body = place_of(text, nodes, at, ACT_EACH_ATOM, 1);
    AtomNode::EachAtom {
        word,
        name,
        low,
        high,
        except,
        body,
    }
}

fn inst_atom_made(text: &[u8], nodes: &[Node], at: usize) -> AtomNode
    requires formed { tree.IsFormed text.now nodes.now }
    requires made { IsMadeBy nodes.now at ACT_INST_ATOM }
    ensures { (whole : AnyAtom) → tree.IsPartAt text.now nodes.now at (POther (PAtom whole)) → IsAtomNode text.now nodes.now at result whole }
{
    let inst = place_of(text, nodes, at, ACT_INST_ATOM, 0);
    AtomNode::InstAtom { inst }
}

/// The node at a place where a part of the kind Atom stands.
pub fn atom_node(text: &[u8], nodes: &[Node], at: usize) -> AtomNode
    requires formed { tree.IsFormed text.now nodes.now }
    requires some { IsSomeAtom text.now nodes.now at }
    ensures { (whole : AnyAtom) → tree.IsPartAt text.now nodes.now at (POther (PAtom whole)) → IsAtomNode text.now nodes.now at result whole }
{
    match act_of(nodes, at) {
        ACT_ONE_ATOM => one_atom_made(text, nodes, at),
        ACT_TWO_ATOM => two_atom_made(text, nodes, at),
        ACT_THREE_ATOM => three_atom_made(text, nodes, at),
        ACT_CELL_ATOM => cell_atom_made(text, nodes, at),
        ACT_FIELD_ATOM => field_atom_made(text, nodes, at),
        ACT_BOOK_ATOM => book_atom_made(text, nodes, at),
        ACT_LOCK_ATOM => lock_atom_made(text, nodes, at),
        ACT_TOKEN_ATOM => token_atom_made(text, nodes, at),
        ACT_DONE_ATOM => done_atom_made(text, nodes, at),
        ACT_EACH_ATOM => each_atom_made(text, nodes, at),
        ACT_INST_ATOM => inst_atom_made(text, nodes, at),
        _ => unreachable!(),
    }
}
