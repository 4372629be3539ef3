//! Books.

ghost use Rattle.std.specs.Prelude.{◌≡◌, ◌∷◌, [], map, IfOk, OnOk};
ghost use Rattle.gv_lang.specs.declared.program.Program.{Program};
ghost use Rattle.gv_atomic.specs.declared.spec.Spec.{Spec};
ghost use Rattle.gv_scriptnames.specs.Names.{names_in};
ghost use Rattle.gv_scriptnames.specs.Scopes.{is_cell_count as cell_count};
ghost use Rattle.gv_scriptnames.specs.Found.{in_each, of_book};
ghost use Rattle.gv_scriptfaults.specs.Least.{after};
ghost use Rattle.gv_scriptfaults.specs.Noted.{AreAdded, IsBook};
ghost use Rattle.gv_scriptfaults.specs.Tables.{Holds};

use crate::declared::declare;
use crate::least::want;
use crate::names::NameSet;
use gv_base::{Code, NoMemory};
use gv_scriptnames::BookOutline;
use gv_typing::Fault;
use std::alloc::Global;

// The number of a book's cells, from 1 to 65,536.
fn is_cell_count(count: u64) -> bool
    ensures { result ≡ cell_count count }
{
    0 < count && count <= 65536
}

/// Notes the faults of a book behind those whose names are in a set, and adds its name.
pub fn note_book(
    alloc: Global,
    text: &[u8],
    names: &mut NameSet,
    book: BookOutline,
    first: &mut Option<Fault>,
) -> Result<(), NoMemory>
    ensures noted { OnOk result (IsBook text.now names.old book first.old first.new) }
    ensures added { OnOk result (AreAdded text.now names.old (book.name ∷ []) names.new) }
{
    let none = NameSet::new(alloc);
    declare(alloc, text, &none, names, book.name, first)?;
    want(
        is_cell_count(book.count.value),
        first,
        book.count.start,
        Code::TooMany,
    );
    Ok(())
}

/// Notes the faults of books, and gives their names.
pub fn note_books(
    alloc: Global,
    text: &[u8],
    books: &[BookOutline],
    first: &mut Option<Fault>,
) -> Result<NameSet, NoMemory>
    ensures noted { OnOk result ((spec : Spec) (program : Program) → first.new ≡ after first.old (in_each (of_book text.now spec program) [] books.now)) }
    ensures names { IfOk result (Holds (names_in text.now (map (λ b. b.name) books.now))) }
{
    let mut names = NameSet::new(alloc);
    for book in books {
        note_book(alloc, text, &mut names, *book, first)?;
    }
    Ok(names)
}
