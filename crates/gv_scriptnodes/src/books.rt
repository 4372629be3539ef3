//! Books.
#![tactic(auto, unfolding(gv_scriptsyntax::specs::Nodes::arity))]

ghost use Rattle.std.specs.Prelude.{◌≡◌, ℕ, ◌<◌, List as Seq, length, map, IfOk};
ghost use Rattle.gv_termread.specs.declared.generated.term_acts.Part.TheVariants.{Other as POther};
ghost use Rattle.gv_scriptsyntax.specs.declared.generated.script_acts.ScriptPart.TheVariants.{Books as PBooks};
ghost use Rattle.gv_scriptsyntax.specs.declared.tree.Book.{Book as AnyBook};
ghost use Rattle.gv_scriptsyntax.specs.Nodes as tree;
ghost use Rattle.gv_scriptnames.specs.Outlines.{of_book};
ghost use Rattle.gv_scriptnodes.specs.Lasts.{IsEnd};
ghost use Rattle.gv_scriptnodes.specs.Places.{act_at};

use crate::parts::{act_of, place_of, token_of};
use gv_scriptnames::BookOutline;
use gv_scriptsyntax::Node;
use gv_scriptsyntax::generated::script_table::ACT_BOOK;
use std::alloc::{AllocError, Global};

// The last one of a list of books that isn't empty.
fn book_at(text: &[u8], nodes: &[Node], at: usize) -> BookOutline
    requires formed { tree.IsFormed text.now nodes.now }
    requires within { at < length nodes.now }
    requires made { act_at nodes.now at ≡ ACT_BOOK }
    ensures { (whole : Seq AnyBook) → tree.IsPartAt text.now nodes.now at (POther (PBooks whole))
        → IsEnd (λ place books. tree.IsPartAt text.now nodes.now place (POther (PBooks books))) of_book text.now nodes.now at 8 result whole }
{
    let name = token_of(text, nodes, at, ACT_BOOK, 6);
    let count = token_of(text, nodes, at, ACT_BOOK, 3);
    BookOutline { name, count }
}

/// The books of a list as outlines, in order.
pub fn books_of(
    alloc: Global,
    text: &[u8],
    nodes: &[Node],
    at: usize,
) -> Result<Vec<BookOutline>, AllocError>
    requires formed { tree.IsFormed text.now nodes.now }
    requires within { at < length nodes.now }
    ensures { IfOk result (λ books. (whole : Seq AnyBook) → tree.IsPartAt text.now nodes.now at (POther (PBooks whole)) → books.items ≡ map of_book whole) }
{
    let mut books = Vec::new(alloc);
    let mut place = at;
    while act_of(nodes, place) == ACT_BOOK {
        let book = book_at(text, nodes, place);
        books.push(book)?;
        place = place_of(text, nodes, place, ACT_BOOK, 8);
    }
    books.reverse();
    Ok(books)
}
