//! What the nodes of a script name.
#![tactic(auto, unfolding(gv_scriptsyntax::specs::Nodes::arity))]

ghost use Rattle.std.specs.Prelude.{◌≡◌, ◌∷◌, ◌++◌, ◌<◌, [], List as Seq, length, IfOk, MatchOption, OnOk};
ghost use Rattle.gv_termread.specs.declared.generated.term_acts.Part.{Part as AnyPart};
ghost use Rattle.gv_scriptsyntax.specs.declared.generated.script_acts.ScriptPart.{ScriptPart};
ghost use Rattle.gv_scriptsyntax.specs.Nodes as tree;
ghost use Rattle.gv_scriptnodes.specs.Gathered.{in_part, named_at};
ghost use Rattle.gv_scriptnodes.specs.Places.{act_at};

use crate::names::count_terms;
use crate::parts::{act_of, first_of, place_of, token_of};
use gv_scriptnames::Mention;
use gv_scriptsyntax::Node;
use gv_scriptsyntax::generated::script_table::{
    ACT_BOOK_ATOM, ACT_CELL_ATOM, ACT_EACH_ATOM, ACT_FIELD_ATOM, ACT_INST, ACT_SET_BOOK, ACT_TO,
    ACT_TOKEN_ATOM,
};
use std::alloc::{AllocError, Global};

// The predicate of an instance.
fn pred_mention(text: &[u8], nodes: &[Node], at: usize) -> Mention
    requires formed { tree.IsFormed text.now nodes.now }
    requires within { at < length nodes.now }
    requires made { act_at nodes.now at ≡ ACT_INST }
    ensures { named_at text.now nodes.now at ≡ result ∷ [] }
{
    let name = token_of(text, nodes, at, ACT_INST, 1);
    let terms = place_of(text, nodes, at, ACT_INST, 0);
    let count = count_terms(text, nodes, terms);
    Mention::Pred(name, count)
}

// The field of a cell.
fn cell_mention(text: &[u8], nodes: &[Node], at: usize) -> Mention
    requires formed { tree.IsFormed text.now nodes.now }
    requires within { at < length nodes.now }
    requires made { act_at nodes.now at ≡ ACT_CELL_ATOM }
    ensures { named_at text.now nodes.now at ≡ result ∷ [] }
{
    let name = token_of(text, nodes, at, ACT_CELL_ATOM, 3);
    Mention::Cell(name)
}

// The field of a field's atom.
fn field_mention(text: &[u8], nodes: &[Node], at: usize) -> Mention
    requires formed { tree.IsFormed text.now nodes.now }
    requires within { at < length nodes.now }
    requires made { act_at nodes.now at ≡ ACT_FIELD_ATOM }
    ensures { named_at text.now nodes.now at ≡ result ∷ [] }
{
    let name = token_of(text, nodes, at, ACT_FIELD_ATOM, 3);
    Mention::Field(name)
}

// The book of a book's atom.
fn book_mention(text: &[u8], nodes: &[Node], at: usize) -> Mention
    requires formed { tree.IsFormed text.now nodes.now }
    requires within { at < length nodes.now }
    requires made { act_at nodes.now at ≡ ACT_BOOK_ATOM }
    ensures { named_at text.now nodes.now at ≡ result ∷ [] }
{
    let name = token_of(text, nodes, at, ACT_BOOK_ATOM, 5);
    Mention::Book(name)
}

// The operation of a token.
fn op_mention(text: &[u8], nodes: &[Node], at: usize) -> Mention
    requires formed { tree.IsFormed text.now nodes.now }
    requires within { at < length nodes.now }
    requires made { act_at nodes.now at ≡ ACT_TOKEN_ATOM }
    ensures { named_at text.now nodes.now at ≡ result ∷ [] }
{
    let word = token_of(text, nodes, at, ACT_TOKEN_ATOM, 6);
    let name = token_of(text, nodes, at, ACT_TOKEN_ATOM, 2);
    let terms = place_of(text, nodes, at, ACT_TOKEN_ATOM, 1);
    let count = count_terms(text, nodes, terms);
    Mention::Op(word, name, count)
}

// The name that an `each` binds.
fn bound_mention(text: &[u8], nodes: &[Node], at: usize) -> Mention
    requires formed { tree.IsFormed text.now nodes.now }
    requires within { at < length nodes.now }
    requires made { act_at nodes.now at ≡ ACT_EACH_ATOM }
    ensures { named_at text.now nodes.now at ≡ result ∷ [] }
{
    let name = token_of(text, nodes, at, ACT_EACH_ATOM, 8);
    Mention::Bound(name)
}

// The book of the command `book`.
fn set_mention(text: &[u8], nodes: &[Node], at: usize) -> Mention
    requires formed { tree.IsFormed text.now nodes.now }
    requires within { at < length nodes.now }
    requires made { act_at nodes.now at ≡ ACT_SET_BOOK }
    ensures { named_at text.now nodes.now at ≡ result ∷ [] }
{
    let name = token_of(text, nodes, at, ACT_SET_BOOK, 3);
    Mention::Book(name)
}

// The cut of the command `to`.
fn cut_mention(text: &[u8], nodes: &[Node], at: usize) -> Mention
    requires formed { tree.IsFormed text.now nodes.now }
    requires within { at < length nodes.now }
    requires made { act_at nodes.now at ≡ ACT_TO }
    ensures { named_at text.now nodes.now at ≡ result ∷ [] }
{
    let cut = token_of(text, nodes, at, ACT_TO, 1);
    Mention::Cut(cut)
}

// What the node at a place names itself.
fn mention_at(text: &[u8], nodes: &[Node], at: usize) -> Option<Mention>
    requires formed { tree.IsFormed text.now nodes.now }
    requires within { at < length nodes.now }
    ensures { MatchOption result (named_at text.now nodes.now at ≡ []) (λ mention. named_at text.now nodes.now at ≡ mention ∷ []) }
{
    let act = act_of(nodes, at);
    if act == ACT_INST {
        return Some(pred_mention(text, nodes, at));
    }
    if act == ACT_CELL_ATOM {
        return Some(cell_mention(text, nodes, at));
    }
    if act == ACT_FIELD_ATOM {
        return Some(field_mention(text, nodes, at));
    }
    if act == ACT_BOOK_ATOM {
        return Some(book_mention(text, nodes, at));
    }
    if act == ACT_TOKEN_ATOM {
        return Some(op_mention(text, nodes, at));
    }
    if act == ACT_EACH_ATOM {
        return Some(bound_mention(text, nodes, at));
    }
    if act == ACT_SET_BOOK {
        return Some(set_mention(text, nodes, at));
    }
    if act == ACT_TO {
        return Some(cut_mention(text, nodes, at));
    }
    None
}

// Adds what the node at a place names itself.
fn add_named(
    text: &[u8],
    nodes: &[Node],
    at: usize,
    mentions: &mut Vec<Mention>,
) -> Result<(), AllocError>
    requires formed { tree.IsFormed text.now nodes.now }
    requires within { at < length nodes.now }
    ensures { OnOk result (mentions.new.items ≡ mentions.old.items ++ named_at text.now nodes.now at) }
{
    match mention_at(text, nodes, at) {
        Some(mention) => {
            mentions.push(mention)?;
            Ok(())
        }
        None => Ok(()),
    }
}

/// What stands at a place and is named, in the order in which it ends, in time linear in the nodes of that part.
pub fn mentions_of(
    alloc: Global,
    text: &[u8],
    nodes: &[Node],
    at: usize,
) -> Result<Vec<Mention>, AllocError>
    requires formed { tree.IsFormed text.now nodes.now }
    requires within { at < length nodes.now }
    ensures { IfOk result (λ mentions. (part : AnyPart ScriptPart) → tree.IsPartAt text.now nodes.now at part → mentions.items ≡ in_part part) }
{
    let mut mentions = Vec::new(alloc);
    let from = first_of(nodes, at);
    for place in from..at + 1 {
        add_named(text, nodes, place, &mut mentions)?;
    }
    Ok(mentions)
}
