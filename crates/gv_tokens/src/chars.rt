//! Characters, and those of names.

ghost use Rattle.std.specs.Prelude.{◌≡◌, ◌+◌, ◌≤◌, length, slice_index, OnSome};
ghost use Rattle.std.specs.Str.{continuation_len};
ghost use Rattle.gv_tokens.specs.Chars as spec;

use std::str;
use unicode::properties::GeneralCategory;

/// How many bytes a character has by its first byte.
pub fn char_len(lead: u8) -> usize
    ensures { result ≡ 1 + continuation_len lead }
{
    if lead < 0x80 {
        1
    } else if lead < 0xE0 {
        2
    } else if lead < 0xF0 {
        3
    } else {
        4
    }
}

/// The character that a text begins with, where it begins with one.
#[tactic(auto, unfolding(crate::specs::Chars::first_char))]
pub fn first_char(text: &[u8]) -> Option<char>
    ensures value { result ≡ spec.first_char text.now }
    ensures within { OnSome result
        (1 + continuation_len (slice_index text.now 0) ≤ length text.now) }
{
    match text {
        [] => None,
        [lead, ..] => {
            if *lead < 0x80 {
                return Some(*lead as char);
            }
            let len = char_len(*lead);
            if text.len() < len {
                return None;
            }
            only_char(&text[..len])
        }
    }
}

// The first of the characters that these bytes are the UTF-8 of.
fn only_char(bytes: &[u8]) -> Option<char>
    ensures { result ≡ spec.char_of bytes.now }
{
    match str::from_utf8(bytes) {
        Ok(text) => text.chars().next(),
        Err(_) => None,
    }
}

/// Whether an identifier may begin with a character.
pub fn is_letter(c: char) -> bool
    ensures { result ≡ spec.is_letter c }
{
    c == '_' || is_letter_category(GeneralCategory::for_char(c))
}

fn is_letter_category(category: GeneralCategory) -> bool
    ensures { result ≡ spec.is_letter_category category }
{
    matches!(
        category,
        GeneralCategory::UppercaseLetter
            | GeneralCategory::LowercaseLetter
            | GeneralCategory::TitlecaseLetter
            | GeneralCategory::ModifierLetter
            | GeneralCategory::OtherLetter
    )
}

/// Whether an identifier may go on with a character.
pub fn is_letter_or_digit(c: char) -> bool
    ensures { result ≡ spec.is_letter_or_digit c }
{
    is_letter(c) || is_digit_category(GeneralCategory::for_char(c))
}

fn is_digit_category(category: GeneralCategory) -> bool
    ensures { result ≡ spec.is_digit_category category }
{
    matches!(category, GeneralCategory::DecimalNumber)
}
