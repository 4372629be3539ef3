//! Commands nodes. Made by tools/script_nodes.py from script.grammar: edit that.
#![tactic(auto, unfolding(gv_scriptsyntax::specs::Nodes::arity))]

ghost use Rattle.std.specs.Prelude.{◌≡◌, List};
ghost use Rattle.gv_termread.specs.declared.generated.term_acts.Part.TheVariants.{Other as POther};
ghost use Rattle.gv_scriptsyntax.specs.declared.generated.script_acts.ScriptPart.TheVariants.{Commands as PCommands};
ghost use Rattle.gv_scriptsyntax.specs.declared.tree.Command.{Command as AnyCommand};
ghost use Rattle.gv_scriptsyntax.specs.Nodes as tree;
ghost use Rattle.gv_certnodes.specs.Places.{IsMadeBy};
ghost use Rattle.gv_commandnodes.specs.Commands.{IsCommandsNode, IsSomeCommands};

use gv_certnodes::{act_of, place_of};
use gv_scriptsyntax::Node;
use gv_scriptsyntax::generated::script_table::{ACT_COMMAND, ACT_LAST, ACT_NO_COMMANDS};

/// Which act makes a part of the kind Commands, with the tokens and the places of the parts that it takes.
#[derive(Clone, Copy)]
pub enum CommandsNode {
    NoCommands,
    Command { commands: usize, next: usize },
    Last { commands: usize, last: usize },
}

fn no_commands_made(_text: &[u8], _nodes: &[Node], _at: usize) -> CommandsNode
    requires formed { tree.IsFormed _text.now _nodes.now }
    requires made { IsMadeBy _nodes.now _at ACT_NO_COMMANDS }
    ensures { (whole : List AnyCommand) → tree.IsPartAt _text.now _nodes.now _at (POther (PCommands whole)) → IsCommandsNode _text.now _nodes.now _at result whole }
{
    CommandsNode::NoCommands
}

fn command_made(text: &[u8], nodes: &[Node], at: usize) -> CommandsNode
    requires formed { tree.IsFormed text.now nodes.now }
    requires made { IsMadeBy nodes.now at ACT_COMMAND }
    ensures { (whole : List AnyCommand) → tree.IsPartAt text.now nodes.now at (POther (PCommands whole)) → IsCommandsNode text.now nodes.now at result whole }
{
    let commands = place_of(text, nodes, at, ACT_COMMAND, 2);
    let next = place_of(text, nodes, at, ACT_COMMAND, 1);
    CommandsNode::Command { commands, next }
}

fn last_made(text: &[u8], nodes: &[Node], at: usize) -> CommandsNode
    requires formed { tree.IsFormed text.now nodes.now }
    requires made { IsMadeBy nodes.now at ACT_LAST }
    ensures { (whole : List AnyCommand) → tree.IsPartAt text.now nodes.now at (POther (PCommands whole)) → IsCommandsNode text.now nodes.now at result whole }
{
    let commands = place_of(text, nodes, at, ACT_LAST, 2);
    let last = place_of(text, nodes, at, ACT_LAST, 1);
    CommandsNode::Last { commands, last }
}

/// The node at a place where a part of the kind Commands stands.
pub fn commands_node(text: &[u8], nodes: &[Node], at: usize) -> CommandsNode
    requires formed { tree.IsFormed text.now nodes.now }
    requires some { IsSomeCommands text.now nodes.now at }
    ensures { (whole : List AnyCommand) → tree.IsPartAt text.now nodes.now at (POther (PCommands whole)) → IsCommandsNode text.now nodes.now at result whole }
{
    match act_of(nodes, at) {
        ACT_NO_COMMANDS => no_commands_made(text, nodes, at),
        ACT_COMMAND => command_made(text, nodes, at),
        ACT_LAST => last_made(text, nodes, at),
        _ => unreachable!(),
    }
}
