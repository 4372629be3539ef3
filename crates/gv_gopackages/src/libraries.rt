//! Packages that may be imported.

ghost use Rattle.std.specs.Prelude.{◌≡◌};
ghost use Rattle.gv_gotypes.specs.Declarations as declarations;

use gv_gotypes::Library;

/// The package whose path ends in this element, if it may be imported.
pub fn library_named(element: &[u8]) -> Option<Library>
    ensures { result ≡ declarations.library_named element.now }
{
    if element == b"sync".as_slice() {
        Some(Library::Sync)
    } else if element == b"disk".as_slice() {
        Some(Library::Disk)
    } else if element == b"twodisk".as_slice() {
        Some(Library::TwoDisk)
    } else if element == b"machine".as_slice() {
        Some(Library::Machine)
    } else if element == b"primitive".as_slice() {
        Some(Library::Machine)
    } else {
        None
    }
}
