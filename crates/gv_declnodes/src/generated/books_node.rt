//! Books nodes. Made by tools/script_nodes.py from script.grammar: edit that.
#![tactic(auto, unfolding(gv_scriptsyntax::specs::Nodes::arity))]

ghost use Rattle.std.specs.Prelude.{◌≡◌, List};
ghost use Rattle.gv_termread.specs.declared.generated.term_acts.Part.TheVariants.{Other as POther};
ghost use Rattle.gv_scriptsyntax.specs.declared.generated.script_acts.ScriptPart.TheVariants.{Books as PBooks};
ghost use Rattle.gv_scriptsyntax.specs.declared.tree.Book.{Book as AnyBook};
ghost use Rattle.gv_scriptsyntax.specs.Nodes as tree;
ghost use Rattle.gv_certnodes.specs.Places.{IsMadeBy};
ghost use Rattle.gv_declnodes.specs.Books.{IsBooksNode, IsSomeBooks};

use gv_certnodes::{act_of, place_of, token_of};
use gv_scriptsyntax::Node;
use gv_scriptsyntax::generated::script_table::{ACT_BOOK, ACT_NO_BOOKS};
use gv_termread::SeenToken;

/// Which act makes a part of the kind Books, with the tokens and the places of the parts that it takes.
#[derive(Clone, Copy)]
pub enum BooksNode {
    NoBooks,
    Book {
        books: usize,
        name: SeenToken,
        sort: SeenToken,
        count: SeenToken,
        first: usize,
    },
}

fn no_books_made(_text: &[u8], _nodes: &[Node], _at: usize) -> BooksNode
    requires formed { tree.IsFormed _text.now _nodes.now }
    requires made { IsMadeBy _nodes.now _at ACT_NO_BOOKS }
    ensures { (whole : List AnyBook) → tree.IsPartAt _text.now _nodes.now _at (POther (PBooks whole)) → IsBooksNode _text.now _nodes.now _at result whole }
{
    BooksNode::NoBooks
}

fn book_made(text: &[u8], nodes: &[Node], at: usize) -> BooksNode
    requires formed { tree.IsFormed text.now nodes.now }
    requires made { IsMadeBy nodes.now at ACT_BOOK }
    ensures { (whole : List AnyBook) → tree.IsPartAt text.now nodes.now at (POther (PBooks whole)) → IsBooksNode text.now nodes.now at result whole }
{
    let books = place_of(text, nodes, at, ACT_BOOK, 8);
    let name = token_of(text, nodes, at, ACT_BOOK, 6);
    let sort = token_of(text, nodes, at, ACT_BOOK, 4);
    let count = token_of(text, nodes, at, ACT_BOOK, 3);
    let first = place_of(text, nodes, at, ACT_BOOK, 1);
    BooksNode::Book {
        books,
        name,
        sort,
        count,
        first,
    }
}

/// The node at a place where a part of the kind Books stands.
pub fn books_node(text: &[u8], nodes: &[Node], at: usize) -> BooksNode
    requires formed { tree.IsFormed text.now nodes.now }
    requires some { IsSomeBooks text.now nodes.now at }
    ensures { (whole : List AnyBook) → tree.IsPartAt text.now nodes.now at (POther (PBooks whole)) → IsBooksNode text.now nodes.now at result whole }
{
    match act_of(nodes, at) {
        ACT_NO_BOOKS => no_books_made(text, nodes, at),
        ACT_BOOK => book_made(text, nodes, at),
        _ => unreachable!(),
    }
}
