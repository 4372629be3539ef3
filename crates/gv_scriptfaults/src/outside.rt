//! The predicates and the books that may be named before the script's own predicates.

ghost use Rattle.std.specs.Prelude.{◌≡◌, ◌++◌, [], map, codes, IfOk};
ghost use Rattle.gv_scriptnames.specs.Names.{name_in, names_in};
ghost use Rattle.gv_scriptnames.specs.Scopes.{outside as scope_of};
ghost use Rattle.gv_scriptfaults.specs.Scoped.{IsOutside};
ghost use Rattle.gv_scriptfaults.specs.Tables.{Holds};

use crate::names::{NameSet, Table};
use crate::scoped::{Outside, Params};
use gv_base::{Name, NoMemory};
use gv_scriptnames::BookOutline;
use gv_termread::{SeenToken, bytes_from};
use std::alloc::Global;

// The name of the lease of a book's cells.
fn lease_name(alloc: Global, text: &[u8], book: SeenToken) -> Result<Name, NoMemory>
    ensures { IfOk result (λ name. name ≡ codes "BookLease." ++ name_in text.now book) }
{
    let mut bytes = Vec::from_slice(alloc, b"BookLease.")?;
    bytes.extend_from_slice(bytes_from(text, book.start, book.end))?;
    Name::from_vec(alloc, bytes)
}

/// The leases that are declared before every script and for each of these books, and the books by their names.
pub fn outside_of(
    alloc: Global,
    text: &[u8],
    books: &[BookOutline],
    names: NameSet,
) -> Result<Outside, NoMemory>
    requires { Holds (names_in text.now (map (λ b. b.name) books.now)) names }
    ensures { IfOk result (IsOutside (scope_of text.now books.now [])) }
{
    let mut preds = Table::new(alloc);
    let block_lease = Params {
        count: 2,
        is_one_ref: false,
    };
    preds.keep(Name::from_slice(alloc, b"BlockLease")?, block_lease)?;
    let book_lease = Params {
        count: 1,
        is_one_ref: false,
    };
    for book in books {
        preds.keep(lease_name(alloc, text, book.name)?, book_lease)?;
    }
    Ok(Outside {
        preds,
        books: names,
    })
}
