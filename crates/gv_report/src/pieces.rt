//! A text written in pieces.

ghost use Rattle.std.specs.Prelude.{◌≡◌, ◌+◌, ◌<◌, ◌≤◌, length, IsTrue};
ghost use Rattle.std.specs.Bool.{IsFalse};
ghost use Rattle.gv_report.specs.Heard.{heard, IsWritten, IsPrefixWritten, NoneFailed, OneFailed};

use gv_base::Sink;

/// The most bytes of one put.
const PIECE: usize = 65_536;

// Puts a piece, and tells whether all of it was written.
fn put_piece<K: Sink>(out: &mut K, piece: &[u8]) -> bool
    requires { length piece.now ≤ PIECE }
    ensures done { IsTrue result → IsWritten (heard K.written K.faults out.old out.new) piece.now }
    ensures calm { IsTrue result → NoneFailed (heard K.written K.faults out.old out.new) }
    ensures prefix { IsFalse result → IsPrefixWritten (heard K.written K.faults out.old out.new) piece.now }
    ensures fault { IsFalse result → OneFailed (heard K.written K.faults out.old out.new) }
{
    match out.put(piece) {
        Ok(()) => true,
        Err(_) => false,
    }
}

// Where the piece that begins at `at` ends.
fn piece_end(at: usize, length: usize) -> usize
    requires { at < length }
    ensures onward { at < result }
    ensures within { result ≤ length }
    ensures small { result ≤ at + PIECE }
{
    if length - at > PIECE {
        at + PIECE
    } else {
        length
    }
}

/// Writes a text in pieces of at most 65,536 bytes, and tells whether all of it was written.
pub fn put_all<K: Sink>(out: &mut K, text: &[u8]) -> bool
    ensures done { IsTrue result → IsWritten (heard K.written K.faults out.old out.new) text.now }
    ensures calm { IsTrue result → NoneFailed (heard K.written K.faults out.old out.new) }
    ensures prefix { IsFalse result → IsPrefixWritten (heard K.written K.faults out.old out.new) text.now }
    ensures fault { IsFalse result → OneFailed (heard K.written K.faults out.old out.new) }
{
    let mut at = 0;
    while at < text.len() {
        let end = piece_end(at, text.len());
        if !put_piece(out, &text[at..end]) {
            return false;
        }
        at = end;
    }
    true
}
