//! A cursor over the tokens of a text, which makes each token as it is asked for.

ghost use Rattle.std.specs.Prelude.{◌≡◌, ◌+◌, ◌-◌, ◌^◌, ◌<◌, ◌≤◌, [], ◌∷◌, ◌++◌, length, None, MatchOption, IfSome, IfNone, OnSome, not, ◌&&◌, if◌then◌else◌, Some, map, slice_get, true, false, IsTrue, ◌↔◌};
ghost use Rattle.std.specs.Prelude.{take, drop};
ghost use Rattle.std.specs.List.{list_all, list_any};
ghost use Rattle.std.specs.Bool.{IsFalse};
ghost use Rattle.std.specs.Str.{bytes_eq};
ghost use Rattle.gv_small.specs.Tokens as spec;
ghost use Rattle.gv_small.specs.Tokens.{BeginsApart};

use crate::token::{SmallToken, Taken};
use gv_base::Place;

/// Go's keywords but those behind which a line may end.
const OPEN_KEYWORDS: [&[u8]; 22] = [
    b"case",
    b"chan",
    b"const",
    b"default",
    b"defer",
    b"else",
    b"fallthrough",
    b"for",
    b"func",
    b"go",
    b"goto",
    b"if",
    b"import",
    b"interface",
    b"map",
    b"package",
    b"range",
    b"select",
    b"struct",
    b"switch",
    b"type",
    b"var",
];

/// The tokens of a text that are still to be read, with their places. It takes no memory.
/// This project's own.
#[derive(Clone, Copy)]
pub struct Cursor<'a> {
    rest: &'a [u8],
    go: bool,
    pending: Option<Place>,
    place: Place,
    ghost line_fits: { place.line + length rest.now < 2 ^ 32 },
    ghost column_fits: { place.column + length rest.now < 2 ^ 32 },
}

// How a text goes on.
#[derive(Clone, Copy)]
enum Beginning {
    Word,
    Arrow,
    Sign,
    End,
}

fn is_word_byte(byte: u8) -> bool
    ensures { result ≡ spec.is_word_byte byte }
{
    byte.is_ascii_alphanumeric() || byte == b'_'
}

fn is_blank(byte: u8) -> bool
    ensures { result ≡ spec.is_blank byte }
{
    byte == b' ' || byte == b'\t' || byte == b'\n'
}

// The place behind one more byte.
fn moved(place: Place, byte: u8) -> Place
    requires line { place.line + 1 < 2 ^ 32 }
    requires column { place.column + 1 < 2 ^ 32 }
    ensures { result ≡ spec.moved place byte }
{
    if byte == b'\n' {
        Place {
            line: place.line + 1,
            column: 1,
        }
    } else {
        Place {
            line: place.line,
            column: place.column + 1,
        }
    }
}

/// Whether a word is among these.
pub fn is_among(names: &[&[u8]], word: &[u8]) -> bool
    ensures { result ≡ list_any (λ name. bytes_eq word.now name.now) names.now }
{
    names.iter().any(|name| word == *name)
}

// Whether a line that ends behind this word ends a statement in Go.
fn ends_line(word: &[u8]) -> bool
    ensures { result ≡ spec.ends_line (spec.named word.now) }
{
    !is_among(&OPEN_KEYWORDS, word)
}

fn closes(byte: u8) -> bool
    ensures { result ≡ spec.ends_line (spec.signed byte) }
{
    byte == b')' || byte == b']' || byte == b'}'
}

// Where a semicolon goes if the line ends here.
fn semicolon_at(go: bool, ends: bool, end: Place) -> Option<Place>
    ensures { result ≡ (if go && ends then Some end else None) }
{
    if go && ends { Some(end) } else { None }
}

// How many bytes of a word a text begins with.
fn word_length(text: &[u8]) -> usize
    ensures within { result ≤ length text.now }
    ensures word { list_all spec.is_word_byte (take result text.now) ≡ true }
    ensures ends { BeginsApart (drop result text.now) }
{
    for (count, byte) in text.iter().enumerate() {
        if !is_word_byte(*byte) {
            return count;
        }
    }
    text.len()
}

impl<'a> Cursor<'a> {
    ghost use Rattle.gv_small.specs.Cursor.{tokens_left, bytes_left, placed_of, Begins, IsWord};

    /// The cursor at the start of a text: with `go` of Go's, else of this project's own.
    pub fn new(text: &'a [u8], go: bool) -> Cursor<'a>
        requires { length text.now < 2 ^ 32 - 1 }
        ensures tokens { tokens_left result ≡ spec.tokens_of go text.now }
        ensures bytes { bytes_left result ≡ length text.now }
    {
        Cursor {
            rest: text,
            go,
            pending: None,
            place: Place { line: 1, column: 1 },
        }
    }

    // Whether a blank comes next.
    fn is_at_blank(&self) -> bool
        ensures blank { IsTrue result ↔ spec.BeginsBlank self.now.rest.now }
        ensures other { IsFalse result → spec.BeginsNoBlank self.now.rest.now }
    {
        match self.rest {
            [first, ..] => is_blank(*first),
            [] => false,
        }
    }

    // Passes over a blank, and gives the place of the semicolon that was left out before it, if one was.
    fn pass_blank(&mut self) -> Option<Place>
        requires { spec.BeginsBlank self.old.rest.now }
        ensures semicolon { IfSome result (λ place. tokens_left self.old ≡ spec.semicolon place ++ tokens_left self.new) }
        ensures kept { IfNone result (tokens_left self.old ≡ tokens_left self.new) }
        ensures fewer { bytes_left self.new + 1 ≡ bytes_left self.old }
    {
        let first = self.rest[0];
        let place = moved(self.place, first);
        self.rest = &self.rest[1..];
        self.place = place;
        if first == b'\n' {
            self.pending.take()
        } else {
            None
        }
    }

    // Passes over blanks, up to a semicolon that was left out at the end of a line, if there is one.
    fn pass_blanks(&mut self) -> Option<Place>
        ensures semicolon { IfSome result (λ place. tokens_left self.old ≡ spec.semicolon place ++ tokens_left self.new) }
        ensures kept { IfNone result (tokens_left self.old ≡ tokens_left self.new) }
        ensures passed { IfNone result (spec.BeginsNoBlank self.new.rest.now) }
        ensures fewer { bytes_left self.new ≤ bytes_left self.old }
    {
        while self.is_at_blank() {
            if let Some(place) = self.pass_blank() {
                return Some(place);
            }
        }
        None
    }

    // Takes the word that comes next.
    fn take_word(&mut self) -> Taken<'a>
        requires { spec.BeginsWord self.old.rest.now }
        ensures taken { tokens_left self.old ≡ placed_of result ∷ tokens_left self.new }
        ensures fewer { bytes_left self.new < bytes_left self.old }
    {
        let (word, rest) = self.rest.split_at(word_length(self.rest));
        let place = self.place;
        let end = Place {
            line: place.line,
            column: place.column + word.len() as u32,
        };
        self.rest = rest;
        self.place = end;
        self.pending = semicolon_at(self.go, ends_line(word), end);
        Taken {
            token: SmallToken::Word(word),
            place,
        }
    }

    // Takes the `->` that comes next.
    fn take_arrow(&mut self) -> Taken<'a>
        requires { spec.BeginsArrow self.old.rest.now }
        ensures taken { tokens_left self.old ≡ placed_of result ∷ tokens_left self.new }
        ensures fewer { bytes_left self.new < bytes_left self.old }
    {
        let place = self.place;
        let middle = moved(place, b'-');
        self.rest = &self.rest[2..];
        self.place = moved(middle, b'>');
        self.pending = None;
        Taken {
            token: SmallToken::Arrow,
            place,
        }
    }

    // Takes the sign that comes next.
    fn take_sign(&mut self) -> Taken<'a>
        requires { spec.BeginsSign self.old.rest.now }
        ensures taken { tokens_left self.old ≡ placed_of result ∷ tokens_left self.new }
        ensures fewer { bytes_left self.new < bytes_left self.old }
    {
        let place = self.place;
        let first = self.rest[0];
        let end = moved(place, first);
        self.rest = &self.rest[1..];
        self.place = end;
        self.pending = semicolon_at(self.go, closes(first), end);
        Taken {
            token: SmallToken::Sign(first),
            place,
        }
    }

    // How the text goes on, where no blank comes next.
    fn beginning(&self) -> Beginning
        requires { spec.BeginsNoBlank self.now.rest.now }
        ensures { Begins result self.now.rest.now }
    {
        match self.rest {
            [] => Beginning::End,
            [b'-', b'>', ..] => Beginning::Arrow,
            [first, ..] if is_word_byte(*first) => Beginning::Word,
            _ => Beginning::Sign,
        }
    }

    /// Takes the next token, where there is one.
    pub fn next(&mut self) -> Option<Taken<'a>>
        ensures some { IfSome result (λ t. tokens_left self.old ≡ placed_of t ∷ tokens_left self.new) }
        ensures none { IfNone result (tokens_left self.old ≡ []) }
        ensures kept { IfNone result (tokens_left self.new ≡ []) }
        ensures fewer { IfSome result (λ t. IsWord t → bytes_left self.new < bytes_left self.old) }
        ensures no_more { bytes_left self.new ≤ bytes_left self.old }
    {
        if let Some(place) = self.pass_blanks() {
            return Some(Taken {
                token: SmallToken::Sign(b';'),
                place,
            });
        }
        match self.beginning() {
            Beginning::Word => Some(self.take_word()),
            Beginning::Arrow => Some(self.take_arrow()),
            Beginning::Sign => Some(self.take_sign()),
            Beginning::End => self.end(),
        }
    }

    // The semicolon that was left out at the end of the text, if one was.
    fn end(&mut self) -> Option<Taken<'a>>
        requires { self.old.rest.now ≡ [] }
        ensures some { IfSome result (λ t. tokens_left self.old ≡ placed_of t ∷ tokens_left self.new) }
        ensures none { IfNone result (tokens_left self.old ≡ []) }
        ensures kept { IfNone result (tokens_left self.new ≡ []) }
        ensures sign { IfSome result (λ t. IsWord t → ⊥) }
        ensures bytes { bytes_left self.new ≡ bytes_left self.old }
    {
        match self.pending.take() {
            Some(place) => Some(Taken {
                token: SmallToken::Sign(b';'),
                place,
            }),
            None => None,
        }
    }
}
