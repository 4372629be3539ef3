//! What something in a script names.

use gv_termread::SeenToken;

/// What a part of a script names, by the rule that it must obey; each name is a token of the text. This project's own.
#[derive(Clone, Copy, Debug, PartialEq, Eq)]
pub enum Mention {
    /// A predicate, and how many terms it has.
    Pred(SeenToken, u64),
    /// A field of a struct, in `cell` and `ro`.
    Cell(SeenToken),
    /// A field of the specification, in `field` and `flease`.
    Field(SeenToken),
    /// A book, in `bmaster`, `blease` and the command `book`.
    Book(SeenToken),
    /// The word `token`, an operation, and how many terms follow.
    Op(SeenToken, SeenToken, u64),
    /// The name that an `each` binds.
    Bound(SeenToken),
    /// The cut behind `to`.
    Cut(SeenToken),
}
