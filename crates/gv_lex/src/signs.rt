//! Operators and punctuation.

ghost use Rattle.std.specs.Prelude.{◌≡◌, ◌≤◌, [], ◌∷◌, length};
ghost use Rattle.gv_lex.specs.Signs as spec;

#[tactic(auto, unfolding(crate::specs::Signs::is_sign))]
fn is_sign_of_one(byte: u8) -> bool
    ensures { result ≡ spec.is_sign (byte ∷ []) }
{
    match byte {
        b'(' | b')' | b'[' | b']' | b'{' | b'}' | b',' | b';' | b':' | b'=' | b'!' => true,
        b'<' | b'>' | b'+' | b'-' | b'*' | b'/' | b'%' | b'&' | b'|' | b'^' | b'?' => true,
        _ => false,
    }
}

#[tactic(auto, unfolding(crate::specs::Signs::is_sign))]
fn is_sign_of_two(first: u8, second: u8) -> bool
    ensures { result ≡ spec.is_sign (first ∷ second ∷ []) }
{
    match (first, second) {
        (b':', b'=') | (b'-', b'>') | (b'.', b'.') | (b'=', b'=') | (b'!', b'=') => true,
        (b'<', b'=') | (b'>', b'=') | (b'<', b'<') | (b'>', b'>') => true,
        (b'&', b'&') | (b'|', b'|') | (b'&', b'^') => true,
        _ => false,
    }
}

/// The length of the longest sign that a text begins with, or 0.
#[tactic(auto, unfolding(crate::specs::Signs::sign_length))]
pub fn sign_len(text: &[u8]) -> usize
    ensures value { result ≡ spec.sign_length text.now }
    ensures within { result ≤ length text.now }
{
    match text {
        [] => 0,
        [first] => usize::from(is_sign_of_one(*first)),
        [first, second, ..] => {
            if is_sign_of_two(*first, *second) {
                2
            } else {
                usize::from(is_sign_of_one(*first))
            }
        }
    }
}
