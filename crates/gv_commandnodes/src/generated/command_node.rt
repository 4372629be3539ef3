//! Command nodes. Made by tools/script_nodes.py from script.grammar: edit that.
#![tactic(auto, unfolding(gv_scriptsyntax::specs::Nodes::arity))]

ghost use Rattle.std.specs.Prelude.{◌≡◌, [], ◌∷◌, true};
ghost use Rattle.gv_termread.specs.declared.generated.term_acts.Part.TheVariants.{Other as POther};
ghost use Rattle.gv_scriptsyntax.specs.declared.generated.script_acts.ScriptPart.TheVariants.{Command as PCommand};
ghost use Rattle.gv_scriptsyntax.specs.declared.tree.Command.{Command as AnyCommand};
ghost use Rattle.gv_grammar.specs.Derivation.{is_among};
ghost use Rattle.gv_scriptsyntax.specs.Nodes as tree;
ghost use Rattle.gv_certnodes.specs.Places.{IsMadeBy};
ghost use Rattle.gv_commandnodes.specs.Command.{IsCommandNode, IsSomeCommand};

use gv_certnodes::{act_of, place_of, token_of};
use gv_scriptsyntax::Node;
use gv_scriptsyntax::generated::script_table::{
    ACT_ABSURD, ACT_ALONE, ACT_AT, ACT_AT_HOLE, ACT_BOOT, ACT_CASES, ACT_CLASH, ACT_FOLD,
    ACT_FORGET, ACT_GUARD, ACT_HALVES_NEW, ACT_HALVES_SET, ACT_HAVE, ACT_LET, ACT_MAP, ACT_MERGE,
    ACT_ON_ATOM, ACT_ON_BLOCK, ACT_ON_PAIR, ACT_REWRITE, ACT_SET_BOOK, ACT_SIM, ACT_STEP, ACT_TO,
    ACT_UNFOLD, ACT_UNFOLD_ARMS, ACT_VOID, ACT_YIELD,
};
use gv_termread::SeenToken;

/// Which act makes a part of the kind Command, with the tokens and the places of the parts that it takes.
#[derive(Clone, Copy)]
pub enum CommandNode {
    Fold {
        word: SeenToken,
        inst: usize,
        number: SeenToken,
        filling: usize,
    },
    Unfold {
        word: SeenToken,
        inst: usize,
        names: usize,
    },
    UnfoldArms {
        word: SeenToken,
        inst: usize,
        arms: usize,
    },
    OnAtom {
        word: SeenToken,
        on: usize,
    },
    Have {
        word: SeenToken,
        term: usize,
        proof: usize,
    },
    Let {
        word: SeenToken,
        name: SeenToken,
        term: usize,
    },
    Rewrite {
        word: SeenToken,
        old: usize,
        new: usize,
    },
    Absurd {
        word: SeenToken,
        proof: usize,
    },
    Clash {
        word: SeenToken,
        atoms: usize,
    },
    Cases {
        word: SeenToken,
        term: usize,
        first: usize,
        second: usize,
    },
    OnPair {
        word: SeenToken,
        a: usize,
        b: usize,
    },
    HalvesNew {
        word: SeenToken,
        value: usize,
        name: SeenToken,
    },
    HalvesSet {
        word: SeenToken,
        name: usize,
        value: usize,
    },
    At {
        word: SeenToken,
        on: usize,
        term: usize,
    },
    AtHole {
        word: SeenToken,
        hole: SeenToken,
        term: usize,
    },
    Map {
        word: SeenToken,
        old: usize,
        new: usize,
        name: SeenToken,
        block: usize,
    },
    Alone {
        word: SeenToken,
    },
    Sim {
        word: SeenToken,
        call: usize,
        choices: usize,
    },
    OnBlock {
        word: SeenToken,
        block: usize,
    },
    Boot {
        word: SeenToken,
        choices: usize,
    },
    Guard {
        word: SeenToken,
        mutex: usize,
        inst: usize,
    },
    SetBook {
        word: SeenToken,
        name: SeenToken,
        place: usize,
        value: usize,
    },
    Forget {
        word: SeenToken,
        disk: usize,
        place: usize,
        value: usize,
    },
    Step {
        word: SeenToken,
        given: usize,
        names: usize,
        during: usize,
        blocks: usize,
    },
    To {
        word: SeenToken,
        cut: SeenToken,
        terms: usize,
    },
    Merge {
        word: SeenToken,
        a: usize,
        b: usize,
        slice: usize,
    },
    Void {
        word: SeenToken,
        item: SeenToken,
    },
    Yield {
        word: SeenToken,
        a: usize,
        b: usize,
        slice: usize,
        low: usize,
        high: usize,
    },
}

fn fold_made(text: &[u8], nodes: &[Node], at: usize) -> CommandNode
    requires formed { tree.IsFormed text.now nodes.now }
    requires made { IsMadeBy nodes.now at ACT_FOLD }
    ensures { (whole : AnyCommand) → tree.IsPartAt text.now nodes.now at (POther (PCommand whole)) → IsCommandNode text.now nodes.now at result whole }
{
    let word = token_of(text, nodes, at, ACT_FOLD, 3);
    let inst = place_of(text, nodes, at, ACT_FOLD, 2);
    let number = token_of(text, nodes, at, ACT_FOLD, 1);
    let filling = place_of(text, nodes, at, ACT_FOLD, 0);
    CommandNode::Fold {
        word,
        inst,
        number,
        filling,
    }
}

fn unfold_made(text: &[u8], nodes: &[Node], at: usize) -> CommandNode
    requires formed { tree.IsFormed text.now nodes.now }
    requires made { IsMadeBy nodes.now at ACT_UNFOLD }
    ensures { (whole : AnyCommand) → tree.IsPartAt text.now nodes.now at (POther (PCommand whole)) → IsCommandNode text.now nodes.now at result whole }
{
    let word = token_of(text, nodes, at, ACT_UNFOLD, 2);
    let inst = place_of(text, nodes, at, ACT_UNFOLD, 1);
    let names = place_of(text, nodes, at, ACT_UNFOLD, 0);
    CommandNode::Unfold { word, inst, names }
}

fn unfold_arms_made(text: &[u8], nodes: &[Node], at: usize) -> CommandNode
    requires formed { tree.IsFormed text.now nodes.now }
    requires made { IsMadeBy nodes.now at ACT_UNFOLD_ARMS }
    ensures { (whole : AnyCommand) → tree.IsPartAt text.now nodes.now at (POther (PCommand whole)) → IsCommandNode text.now nodes.now at result whole }
{
    let word = token_of(text, nodes, at, ACT_UNFOLD_ARMS, 2);
    let inst = place_of(text, nodes, at, ACT_UNFOLD_ARMS, 1);
    let arms = place_of(text, nodes, at, ACT_UNFOLD_ARMS, 0);
    CommandNode::UnfoldArms { word, inst, arms }
}

fn on_atom_made(text: &[u8], nodes: &[Node], at: usize) -> CommandNode
    requires formed { tree.IsFormed text.now nodes.now }
    requires made { IsMadeBy nodes.now at ACT_ON_ATOM }
    ensures { (whole : AnyCommand) → tree.IsPartAt text.now nodes.now at (POther (PCommand whole)) → IsCommandNode text.now nodes.now at result whole }
{
    let word = token_of(text, nodes, at, ACT_ON_ATOM, 1);
    let on = place_of(text, nodes, at, ACT_ON_ATOM, 0);
    CommandNode::OnAtom { word, on }
}

fn have_made(text: &[u8], nodes: &[Node], at: usize) -> CommandNode
    requires formed { tree.IsFormed text.now nodes.now }
    requires made { IsMadeBy nodes.now at ACT_HAVE }
    ensures { (whole : AnyCommand) → tree.IsPartAt text.now nodes.now at (POther (PCommand whole)) → IsCommandNode text.now nodes.now at result whole }
{
    let word = token_of(text, nodes, at, ACT_HAVE, 3);
    let term = place_of(text, nodes, at, ACT_HAVE, 2);
    let proof = place_of(text, nodes, at, ACT_HAVE, 0);
    CommandNode::Have { word, term, proof }
}

fn let_made(text: &[u8], nodes: &[Node], at: usize) -> CommandNode
    requires formed { tree.IsFormed text.now nodes.now }
    requires made { IsMadeBy nodes.now at ACT_LET }
    ensures { (whole : AnyCommand) → tree.IsPartAt text.now nodes.now at (POther (PCommand whole)) → IsCommandNode text.now nodes.now at result whole }
{
    let word = token_of(text, nodes, at, ACT_LET, 3);
    let name = token_of(text, nodes, at, ACT_LET, 2);
    let term = place_of(text, nodes, at, ACT_LET, 0);
    CommandNode::Let { word, name, term }
}

fn rewrite_made(text: &[u8], nodes: &[Node], at: usize) -> CommandNode
    requires formed { tree.IsFormed text.now nodes.now }
    requires made { IsMadeBy nodes.now at ACT_REWRITE }
    ensures { (whole : AnyCommand) → tree.IsPartAt text.now nodes.now at (POther (PCommand whole)) → IsCommandNode text.now nodes.now at result whole }
{
    let word = token_of(text, nodes, at, ACT_REWRITE, 3);
    let old = place_of(text, nodes, at, ACT_REWRITE, 2);
    let new = place_of(text, nodes, at, ACT_REWRITE, 0);
    CommandNode::Rewrite { word, old, new }
}

fn absurd_made(text: &[u8], nodes: &[Node], at: usize) -> CommandNode
    requires formed { tree.IsFormed text.now nodes.now }
    requires made { IsMadeBy nodes.now at ACT_ABSURD }
    ensures { (whole : AnyCommand) → tree.IsPartAt text.now nodes.now at (POther (PCommand whole)) → IsCommandNode text.now nodes.now at result whole }
{
    let word = token_of(text, nodes, at, ACT_ABSURD, 2);
    let proof = place_of(text, nodes, at, ACT_ABSURD, 0);
    CommandNode::Absurd { word, proof }
}

fn clash_made(text: &[u8], nodes: &[Node], at: usize) -> CommandNode
    requires formed { tree.IsFormed text.now nodes.now }
    requires made { IsMadeBy nodes.now at ACT_CLASH }
    ensures { (whole : AnyCommand) → tree.IsPartAt text.now nodes.now at (POther (PCommand whole)) → IsCommandNode text.now nodes.now at result whole }
{
    let word = token_of(text, nodes, at, ACT_CLASH, 1);
    let atoms = place_of(text, nodes, at, ACT_CLASH, 0);
    CommandNode::Clash { word, atoms }
}

fn cases_made(text: &[u8], nodes: &[Node], at: usize) -> CommandNode
    requires formed { tree.IsFormed text.now nodes.now }
    requires made { IsMadeBy nodes.now at ACT_CASES }
    ensures { (whole : AnyCommand) → tree.IsPartAt text.now nodes.now at (POther (PCommand whole)) → IsCommandNode text.now nodes.now at result whole }
{
    let word = token_of(text, nodes, at, ACT_CASES, 3);
    let term = place_of(text, nodes, at, ACT_CASES, 2);
    let first = place_of(text, nodes, at, ACT_CASES, 1);
    let second = place_of(text, nodes, at, ACT_CASES, 0);
    CommandNode::Cases {
        word,
        term,
        first,
        second,
    }
}

fn on_pair_made(text: &[u8], nodes: &[Node], at: usize) -> CommandNode
    requires formed { tree.IsFormed text.now nodes.now }
    requires made { IsMadeBy nodes.now at ACT_ON_PAIR }
    ensures { (whole : AnyCommand) → tree.IsPartAt text.now nodes.now at (POther (PCommand whole)) → IsCommandNode text.now nodes.now at result whole }
{
    let word = token_of(text, nodes, at, ACT_ON_PAIR, 3);
    let a = place_of(text, nodes, at, ACT_ON_PAIR, 2);
    let b = place_of(text, nodes, at, ACT_ON_PAIR, 0);
    CommandNode::OnPair { word, a, b }
}

fn halves_new_made(text: &[u8], nodes: &[Node], at: usize) -> CommandNode
    requires formed { tree.IsFormed text.now nodes.now }
    requires made { IsMadeBy nodes.now at ACT_HALVES_NEW }
    ensures { (whole : AnyCommand) → tree.IsPartAt text.now nodes.now at (POther (PCommand whole)) → IsCommandNode text.now nodes.now at result whole }
{
    let word = token_of(text, nodes, at, ACT_HALVES_NEW, 4);
    let value = place_of(text, nodes, at, ACT_HALVES_NEW, 2);
    let name = token_of(text, nodes, at, ACT_HALVES_NEW, 0);
    CommandNode::HalvesNew { word, value, name }
}

fn halves_set_made(text: &[u8], nodes: &[Node], at: usize) -> CommandNode
    requires formed { tree.IsFormed text.now nodes.now }
    requires made { IsMadeBy nodes.now at ACT_HALVES_SET }
    ensures { (whole : AnyCommand) → tree.IsPartAt text.now nodes.now at (POther (PCommand whole)) → IsCommandNode text.now nodes.now at result whole }
{
    let word = token_of(text, nodes, at, ACT_HALVES_SET, 3);
    let name = place_of(text, nodes, at, ACT_HALVES_SET, 1);
    let value = place_of(text, nodes, at, ACT_HALVES_SET, 0);
    CommandNode::HalvesSet { word, name, value }
}

fn at_made(text: &[u8], nodes: &[Node], at: usize) -> CommandNode
    requires formed { tree.IsFormed text.now nodes.now }
    requires made { IsMadeBy nodes.now at ACT_AT }
    ensures { (whole : AnyCommand) → tree.IsPartAt text.now nodes.now at (POther (PCommand whole)) → IsCommandNode text.now nodes.now at result whole }
{
    let word = token_of(text, nodes, at, ACT_AT, 3);
    let on = place_of(text, nodes, at, ACT_AT, 2);
    let term = place_of(text, nodes, at, ACT_AT, 0);
    CommandNode::At { word, on, term }
}

fn at_hole_made(text: &[u8], nodes: &[Node], at: usize) -> CommandNode
    requires formed { tree.IsFormed text.now nodes.now }
    requires made { IsMadeBy nodes.now at ACT_AT_HOLE }
    ensures { (whole : AnyCommand) → tree.IsPartAt text.now nodes.now at (POther (PCommand whole)) → IsCommandNode text.now nodes.now at result whole }
{
    let word = token_of(text, nodes, at, ACT_AT_HOLE, 3);
    let hole = token_of(text, nodes, at, ACT_AT_HOLE, 2);
    let term = place_of(text, nodes, at, ACT_AT_HOLE, 0);
    CommandNode::AtHole { word, hole, term }
}

fn map_made(text: &[u8], nodes: &[Node], at: usize) -> CommandNode
    requires formed { tree.IsFormed text.now nodes.now }
    requires made { IsMadeBy nodes.now at ACT_MAP }
    ensures { (whole : AnyCommand) → tree.IsPartAt text.now nodes.now at (POther (PCommand whole)) → IsCommandNode text.now nodes.now at result whole }
{
    let word = token_of(text, nodes, at, ACT_MAP, 6);
    let old = place_of(text, nodes, at, ACT_MAP, 5);
    let new = place_of(text, nodes, at, ACT_MAP, 3);
    let name = token_of(text, nodes, at, ACT_MAP, 1);
    let block = place_of(text, nodes, at, ACT_MAP, 0);
    CommandNode::Map {
        word,
        old,
        new,
        name,
        block,
    }
}

fn alone_made(text: &[u8], nodes: &[Node], at: usize) -> CommandNode
    requires formed { tree.IsFormed text.now nodes.now }
    requires made { IsMadeBy nodes.now at ACT_ALONE }
    ensures { (whole : AnyCommand) → tree.IsPartAt text.now nodes.now at (POther (PCommand whole)) → IsCommandNode text.now nodes.now at result whole }
{
    let word = token_of(text, nodes, at, ACT_ALONE, 0);
    CommandNode::Alone { word }
}

fn sim_made(text: &[u8], nodes: &[Node], at: usize) -> CommandNode
    requires formed { tree.IsFormed text.now nodes.now }
    requires made { IsMadeBy nodes.now at ACT_SIM }
    ensures { (whole : AnyCommand) → tree.IsPartAt text.now nodes.now at (POther (PCommand whole)) → IsCommandNode text.now nodes.now at result whole }
{
    let word = token_of(text, nodes, at, ACT_SIM, 2);
    let call = place_of(text, nodes, at, ACT_SIM, 1);
    let choices = place_of(text, nodes, at, ACT_SIM, 0);
    CommandNode::Sim {
        word,
        call,
        choices,
    }
}

fn on_block_made(text: &[u8], nodes: &[Node], at: usize) -> CommandNode
    requires formed { tree.IsFormed text.now nodes.now }
    requires made { IsMadeBy nodes.now at ACT_ON_BLOCK }
    ensures { (whole : AnyCommand) → tree.IsPartAt text.now nodes.now at (POther (PCommand whole)) → IsCommandNode text.now nodes.now at result whole }
{
    let word = token_of(text, nodes, at, ACT_ON_BLOCK, 1);
    let block = place_of(text, nodes, at, ACT_ON_BLOCK, 0);
    CommandNode::OnBlock { word, block }
}

fn boot_made(text: &[u8], nodes: &[Node], at: usize) -> CommandNode
    requires formed { tree.IsFormed text.now nodes.now }
    requires made { IsMadeBy nodes.now at ACT_BOOT }
    ensures { (whole : AnyCommand) → tree.IsPartAt text.now nodes.now at (POther (PCommand whole)) → IsCommandNode text.now nodes.now at result whole }
{
    let word = token_of(text, nodes, at, ACT_BOOT, 1);
    let choices = place_of(text, nodes, at, ACT_BOOT, 0);
    CommandNode::Boot { word, choices }
}

fn guard_made(text: &[u8], nodes: &[Node], at: usize) -> CommandNode
    requires formed { tree.IsFormed text.now nodes.now }
    requires made { IsMadeBy nodes.now at ACT_GUARD }
    ensures { (whole : AnyCommand) → tree.IsPartAt text.now nodes.now at (POther (PCommand whole)) → IsCommandNode text.now nodes.now at result whole }
{
    let word = token_of(text, nodes, at, ACT_GUARD, 2);
    let mutex = place_of(text, nodes, at, ACT_GUARD, 1);
    let inst = place_of(text, nodes, at, ACT_GUARD, 0);
    CommandNode::Guard { word, mutex, inst }
}

fn set_book_made(text: &[u8], nodes: &[Node], at: usize) -> CommandNode
    requires formed { tree.IsFormed text.now nodes.now }
    requires made { IsMadeBy nodes.now at ACT_SET_BOOK }
    ensures { (whole : AnyCommand) → tree.IsPartAt text.now nodes.now at (POther (PCommand whole)) → IsCommandNode text.now nodes.now at result whole }
{
    let word = token_of(text, nodes, at, ACT_SET_BOOK, 4);
    let name = token_of(text, nodes, at, ACT_SET_BOOK, 3);
    let place = place_of(text, nodes, at, ACT_SET_BOOK, 2);
    let value = place_of(text, nodes, at, ACT_SET_BOOK, 0);
    CommandNode::SetBook {
        word,
        name,
        place,
        value,
    }
}

fn forget_made(text: &[u8], nodes: &[Node], at: usize) -> CommandNode
    requires formed { tree.IsFormed text.now nodes.now }
    requires made { IsMadeBy nodes.now at ACT_FORGET }
    ensures { (whole : AnyCommand) → tree.IsPartAt text.now nodes.now at (POther (PCommand whole)) → IsCommandNode text.now nodes.now at result whole }
{
    let word = token_of(text, nodes, at, ACT_FORGET, 4);
    let disk = place_of(text, nodes, at, ACT_FORGET, 3);
    let place = place_of(text, nodes, at, ACT_FORGET, 2);
    let value = place_of(text, nodes, at, ACT_FORGET, 0);
    CommandNode::Forget {
        word,
        disk,
        place,
        value,
    }
}

fn step_made(text: &[u8], nodes: &[Node], at: usize) -> CommandNode
    requires formed { tree.IsFormed text.now nodes.now }
    requires made { IsMadeBy nodes.now at ACT_STEP }
    ensures { (whole : AnyCommand) → tree.IsPartAt text.now nodes.now at (POther (PCommand whole)) → IsCommandNode text.now nodes.now at result whole }
{
    let word = token_of(text, nodes, at, ACT_STEP, 4);
    let given = place_of(text, nodes, at, ACT_STEP, 3);
    let names = place_of(text, nodes, at, ACT_STEP, 2);
    let during = place_of(text, nodes, at, ACT_STEP, 1);
    let blocks = place_of(text, nodes, at, ACT_STEP, 0);
    CommandNode::Step {
        word,
        given,
        names,
        during,
        blocks,
    }
}

fn to_made(text: &[u8], nodes: &[Node], at: usize) -> CommandNode
    requires formed { tree.IsFormed text.now nodes.now }
    requires made { IsMadeBy nodes.now at ACT_TO }
    ensures { (whole : AnyCommand) → tree.IsPartAt text.now nodes.now at (POther (PCommand whole)) → IsCommandNode text.now nodes.now at result whole }
{
    let word = token_of(text, nodes, at, ACT_TO, 2);
    let cut = token_of(text, nodes, at, ACT_TO, 1);
    let terms = place_of(text, nodes, at, ACT_TO, 0);
    CommandNode::To { word, cut, terms }
}

fn merge_made(text: &[u8], nodes: &[Node], at: usize) -> CommandNode
    requires formed { tree.IsFormed text.now nodes.now }
    requires made { IsMadeBy nodes.now at ACT_MERGE }
    ensures { (whole : AnyCommand) → tree.IsPartAt text.now nodes.now at (POther (PCommand whole)) → IsCommandNode text.now nodes.now at result whole }
{
    let word = token_of(text, nodes, at, ACT_MERGE, 5);
    let a = place_of(text, nodes, at, ACT_MERGE, 4);
    let b = place_of(text, nodes, at, ACT_MERGE, 2);
    let slice = place_of(text, nodes, at, ACT_MERGE, 0);
    CommandNode::Merge { word, a, b, slice }
}

fn void_made(text: &[u8], nodes: &[Node], at: usize) -> CommandNode
    requires formed { tree.IsFormed text.now nodes.now }
    requires made { IsMadeBy nodes.now at ACT_VOID }
    ensures { (whole : AnyCommand) → tree.IsPartAt text.now nodes.now at (POther (PCommand whole)) → IsCommandNode text.now nodes.now at result whole }
{
    let word = token_of(text, nodes, at, ACT_VOID, 1);
    let item = token_of(text, nodes, at, ACT_VOID, 0);
    CommandNode::Void { word, item }
}

fn yield_made(text: &[u8], nodes: &[Node], at: usize) -> CommandNode
    requires formed { tree.IsFormed text.now nodes.now }
    requires made { IsMadeBy nodes.now at ACT_YIELD }
    ensures { (whole : AnyCommand) → tree.IsPartAt text.now nodes.now at (POther (PCommand whole)) → IsCommandNode text.now nodes.now at result whole }
{
    let word = token_of(text, nodes, at, ACT_YIELD, 12);
    let a = place_of(text, nodes, at, ACT_YIELD, 11);
    let b = place_of(text, nodes, at, ACT_YIELD, 9);
    let slice = place_of(text, nodes, at, ACT_YIELD, 5);
    let low = place_of(text, nodes, at, ACT_YIELD, 3);
    let high = place_of(text, nodes, at, ACT_YIELD, 1);
    CommandNode::Yield {
        word,
        a,
        b,
        slice,
        low,
        high,
    }
}

fn earlier_command_node(text: &[u8], nodes: &[Node], at: usize, act: u8) -> CommandNode
    requires formed { tree.IsFormed text.now nodes.now }
    requires made { IsMadeBy nodes.now at act }
    requires among { is_among act (70 ∷ 71 ∷ 72 ∷ 73 ∷ 74 ∷ 75 ∷ 76 ∷ 77 ∷ 78 ∷ 79 ∷ 80 ∷ 81 ∷ 82 ∷ 83 ∷ []) ≡ true }
    ensures { (whole : AnyCommand) → tree.IsPartAt text.now nodes.now at (POther (PCommand whole)) → IsCommandNode text.now nodes.now at result whole }
{
    match act {
        ACT_FOLD => fold_made(text, nodes, at),
        ACT_UNFOLD => unfold_made(text, nodes, at),
        ACT_UNFOLD_ARMS => unfold_arms_made(text, nodes, at),
        ACT_ON_ATOM => on_atom_made(text, nodes, at),
        ACT_HAVE => have_made(text, nodes, at),
        ACT_LET => let_made(text, nodes, at),
        ACT_REWRITE => rewrite_made(text, nodes, at),
        ACT_ABSURD => absurd_made(text, nodes, at),
        ACT_CLASH => clash_made(text, nodes, at),
        ACT_CASES => cases_made(text, nodes, at),
        ACT_ON_PAIR => on_pair_made(text, nodes, at),
        ACT_HALVES_NEW => halves_new_made(text, nodes, at),
        ACT_HALVES_SET => halves_set_made(text, nodes, at),
        ACT_AT => at_made(text, nodes, at),
        _ => unreachable!(),
    }
}

fn later_command_node(text: &[u8], nodes: &[Node], at: usize, act: u8) -> CommandNode
    requires formed { tree.IsFormed text.now nodes.now }
    requires made { IsMadeBy nodes.now at act }
    requires among { is_among act (84 ∷ 85 ∷ 86 ∷ 87 ∷ 88 ∷ 89 ∷ 90 ∷ 91 ∷ 92 ∷ 93 ∷ 94 ∷ 95 ∷ 96 ∷ 97 ∷ []) ≡ true }
    ensures { (whole : AnyCommand) → tree.IsPartAt text.now nodes.now at (POther (PCommand whole)) → IsCommandNode text.now nodes.now at result whole }
{
    match act {
        ACT_AT_HOLE => at_hole_made(text, nodes, at),
        ACT_MAP => map_made(text, nodes, at),
        ACT_ALONE => alone_made(text, nodes, at),
        ACT_SIM => sim_made(text, nodes, at),
        ACT_ON_BLOCK => on_block_made(text, nodes, at),
        ACT_BOOT => boot_made(text, nodes, at),
        ACT_GUARD => guard_made(text, nodes, at),
        ACT_SET_BOOK => set_book_made(text, nodes, at),
        ACT_FORGET => forget_made(text, nodes, at),
        ACT_STEP => step_made(text, nodes, at),
        ACT_TO => to_made(text, nodes, at),
        ACT_MERGE => merge_made(text, nodes, at),
        ACT_VOID => void_made(text, nodes, at),
        ACT_YIELD => yield_made(text, nodes, at),
        _ => unreachable!(),
    }
}

/// The node at a place where a part of the kind Command stands.
pub fn command_node(text: &[u8], nodes: &[Node], at: usize) -> CommandNode
    requires formed { tree.IsFormed text.now nodes.now }
    requires some { IsSomeCommand text.now nodes.now at }
    ensures { (whole : AnyCommand) → tree.IsPartAt text.now nodes.now at (POther (PCommand whole)) → IsCommandNode text.now nodes.now at result whole }
{
    let act = act_of(nodes, at);
    if act < ACT_AT_HOLE {
        earlier_command_node(text, nodes, at, act)
    } else {
        later_command_node(text, nodes, at, act)
    }
}
