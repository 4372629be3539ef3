//! Declared constants.

ghost use Rattle.std.specs.Prelude.{◌≡◌};
ghost use Rattle.gv_gotypes.specs.Constants.{settled_constant};

use gv_operands::{Class, Kind};

/// A declared constant: whether `uint64` stands in its declaration, and where the node of its expression stands.
#[derive(Clone, Copy, Debug)]
pub struct ConstantNode {
    pub is_word: bool,
    pub value: usize,
}

/// What a constant is by its expression: none without a value, and a word with `uint64` in its declaration.
pub fn settled(is_word: bool, class: Option<Class>) -> Option<Class>
    ensures { result ≡ settled_constant is_word class }
{
    match class {
        Some(Class::Fixed(Kind::OfWord, Some(value))) => Some(Class::Fixed(
            Kind::OfWord,
            Some(value),
        )),
        Some(Class::Fixed(Kind::Untyped, Some(value))) => {
            if is_word {
                Some(Class::Fixed(Kind::OfWord, Some(value)))
            } else {
                Some(Class::Fixed(Kind::Untyped, Some(value)))
            }
        }
        Some(Class::Fixed(kind, Some(value))) => {
            if is_word {
                None
            } else {
                Some(Class::Fixed(kind, Some(value)))
            }
        }
        _ => None,
    }
}
