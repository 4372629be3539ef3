//! Cert nodes. Made by tools/script_nodes.py from script.grammar: edit that.
#![tactic(auto, unfolding(gv_scriptsyntax::specs::Nodes::arity))]

ghost use Rattle.std.specs.Prelude.{◌≡◌};
ghost use Rattle.gv_termread.specs.declared.generated.term_acts.Part.TheVariants.{Other as POther};
ghost use Rattle.gv_scriptsyntax.specs.declared.generated.script_acts.ScriptPart.TheVariants.{Cert as PCert};
ghost use Rattle.gv_scriptsyntax.specs.declared.tree.Cert.{Cert as AnyCert};
ghost use Rattle.gv_scriptsyntax.specs.Nodes as tree;
ghost use Rattle.gv_certnodes.specs.Places.{IsMadeBy};
ghost use Rattle.gv_certnodes.specs.Cert.{IsCertNode, IsSomeCert};

use crate::parts::{act_of, place_of, token_of};
use gv_scriptsyntax::Node;
use gv_scriptsyntax::generated::script_table::{
    ACT_AXIOM, ACT_BY_CASES, ACT_CONTRA, ACT_GIVEN, ACT_HOLE, ACT_LINEAR, ACT_STEPS, ACT_SUBST,
};
use gv_termread::SeenToken;

/// Which act makes a part of the kind Cert, with the tokens and the places of the parts that it takes.
#[derive(Clone, Copy)]
pub enum CertNode {
    Given {
        word: SeenToken,
    },
    Axiom {
        word: SeenToken,
        number: SeenToken,
        terms: usize,
    },
    Subst {
        word: SeenToken,
        equation: usize,
        within: usize,
    },
    Contra {
        word: SeenToken,
        term: usize,
    },
    Linear {
        word: SeenToken,
        sums: usize,
        factors: usize,
    },
    ByCases {
        word: SeenToken,
        term: usize,
        first: usize,
        second: usize,
    },
    Steps {
        word: SeenToken,
        haves: usize,
        last: usize,
    },
    Hole {
        token: SeenToken,
    },
}

fn given_made(text: &[u8], nodes: &[Node], at: usize) -> CertNode
    requires formed { tree.IsFormed text.now nodes.now }
    requires made { IsMadeBy nodes.now at ACT_GIVEN }
    ensures { (whole : AnyCert) → tree.IsPartAt text.now nodes.now at (POther (PCert whole)) → IsCertNode text.now nodes.now at result whole }
{
    let word = token_of(text, nodes, at, ACT_GIVEN, 0);
    CertNode::Given { word }
}

fn axiom_made(text: &[u8], nodes: &[Node], at: usize) -> CertNode
    requires formed { tree.IsFormed text.now nodes.now }
    requires made { IsMadeBy nodes.now at ACT_AXIOM }
    ensures { (whole : AnyCert) → tree.IsPartAt text.now nodes.now at (POther (PCert whole)) → IsCertNode text.now nodes.now at result whole }
{
    let word = token_of(text, nodes, at, ACT_AXIOM, 2);
    let number = token_of(text, nodes, at, ACT_AXIOM, 1);
    let terms = place_of(text, nodes, at, ACT_AXIOM, 0);
    CertNode::Axiom {
        word,
        number,
        terms,
    }
}

fn subst_made(text: &[u8], nodes: &[Node], at: usize) -> CertNode
    requires formed { tree.IsFormed text.now nodes.now }
    requires made { IsMadeBy nodes.now at ACT_SUBST }
    ensures { (whole : AnyCert) → tree.IsPartAt text.now nodes.now at (POther (PCert whole)) → IsCertNode text.now nodes.now at result whole }
{
    let word = token_of(text, nodes, at, ACT_SUBST, 2);
    let equation = place_of(text, nodes, at, ACT_SUBST, 1);
    let within = place_of(text, nodes, at, ACT_SUBST, 0);
    CertNode::Subst {
        word,
        equation,
        within,
    }
}

fn contra_made(text: &[u8], nodes: &[Node], at: usize) -> CertNode
    requires formed { tree.IsFormed text.now nodes.now }
    requires made { IsMadeBy nodes.now at ACT_CONTRA }
    ensures { (whole : AnyCert) → tree.IsPartAt text.now nodes.now at (POther (PCert whole)) → IsCertNode text.now nodes.now at result whole }
{
    let word = token_of(text, nodes, at, ACT_CONTRA, 1);
    let term = place_of(text, nodes, at, ACT_CONTRA, 0);
    CertNode::Contra { word, term }
}

fn linear_made(text: &[u8], nodes: &[Node], at: usize) -> CertNode
    requires formed { tree.IsFormed text.now nodes.now }
    requires made { IsMadeBy nodes.now at ACT_LINEAR }
    ensures { (whole : AnyCert) → tree.IsPartAt text.now nodes.now at (POther (PCert whole)) → IsCertNode text.now nodes.now at result whole }
{
    let word = token_of(text, nodes, at, ACT_LINEAR, 6);
    let sums = place_of(text, nodes, at, ACT_LINEAR, 4);
    let factors = place_of(text, nodes, at, ACT_LINEAR, 1);
    CertNode::Linear {
        word,
        sums,
        factors,
    }
}

fn by_cases_made(text: &[u8], nodes: &[Node], at: usize) -> CertNode
    requires formed { tree.IsFormed text.now nodes.now }
    requires made { IsMadeBy nodes.now at ACT_BY_CASES }
    ensures { (whole : AnyCert) → tree.IsPartAt text.now nodes.now at (POther (PCert whole)) → IsCertNode text.now nodes.now at result whole }
{
    let word = token_of(text, nodes, at, ACT_BY_CASES, 7);
    let term = place_of(text, nodes, at, ACT_BY_CASES, 6);
    let first = place_of(text, nodes, at, ACT_BY_CASES, 4);
    let second = place_of(text, nodes, at, ACT_BY_CASES, 1);
    CertNode::ByCases {
        word,
        term,
        first,
        second,
    }
}

fn steps_made(text: &[u8], nodes: &[Node], at: usize) -> CertNode
    requires formed { tree.IsFormed text.now nodes.now }
    requires made { IsMadeBy nodes.now at ACT_STEPS }
    ensures { (whole : AnyCert) → tree.IsPartAt text.now nodes.now at (POther (PCert whole)) → IsCertNode text.now nodes.now at result whole }
{
    let word = token_of(text, nodes, at, ACT_STEPS, 4);
    let haves = place_of(text, nodes, at, ACT_STEPS, 2);
    let last = place_of(text, nodes, at, ACT_STEPS, 1);
    CertNode::Steps { word, haves, last }
}

fn hole_made(text: &[u8], nodes: &[Node], at: usize) -> CertNode
    requires formed { tree.IsFormed text.now nodes.now }
    requires made { IsMadeBy nodes.now at ACT_HOLE }
    ensures { (whole : AnyCert) → tree.IsPartAt text.now nodes.now at (POther (PCert whole)) → IsCertNode text.now nodes.now at result whole }
{
    let token = token_of(text, nodes, at, ACT_HOLE, 0);
    CertNode::Hole { token }
}

/// The node at a place where a part of the kind Cert stands.
pub fn cert_node(text: &[u8], nodes: &[Node], at: usize) -> CertNode
    requires formed { tree.IsFormed text.now nodes.now }
    requires some { IsSomeCert text.now nodes.now at }
    ensures { (whole : AnyCert) → tree.IsPartAt text.now nodes.now at (POther (PCert whole)) → IsCertNode text.now nodes.now at result whole }
{
    match act_of(nodes, at) {
        ACT_GIVEN => given_made(text, nodes, at),
        ACT_AXIOM => axiom_made(text, nodes, at),
        ACT_SUBST => subst_made(text, nodes, at),
        ACT_CONTRA => contra_made(text, nodes, at),
        ACT_LINEAR => linear_made(text, nodes, at),
        ACT_BY_CASES => by_cases_made(text, nodes, at),
        ACT_STEPS => steps_made(text, nodes, at),
        ACT_HOLE => hole_made(text, nodes, at),
        _ => unreachable!(),
    }
}
