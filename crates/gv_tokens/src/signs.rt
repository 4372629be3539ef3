//! Operators and punctuation.

ghost use Rattle.std.specs.Prelude.{◌≡◌, ◌≤◌, [], ◌∷◌, length};
ghost use Rattle.gv_tokens.specs.Signs as spec;

#[tactic(auto, unfolding(crate::specs::Signs::is_sign))]
pub fn is_sign_of_one(byte: u8) -> bool
    ensures { result ≡ spec.is_sign (byte ∷ []) }
{
    byte == b'('
        || byte == b')'
        || byte == b'['
        || byte == b']'
        || byte == b'{'
        || byte == b'}'
        || byte == b','
        || byte == b';'
        || byte == b'.'
        || byte == b':'
        || byte == b'='
        || byte == b'!'
        || byte == b'<'
        || byte == b'>'
        || byte == b'+'
        || byte == b'-'
        || byte == b'*'
        || byte == b'/'
        || byte == b'%'
        || byte == b'&'
        || byte == b'|'
        || byte == b'^'
}

#[tactic(auto, unfolding(crate::specs::Signs::is_sign))]
fn is_sign_of_two(first: u8, second: u8) -> bool
    ensures { result ≡ spec.is_sign (first ∷ second ∷ []) }
{
    match second {
        b'=' => comes_before_equals(first),
        b'^' => first == b'&',
        b'-' => first == b'-' || first == b'<',
        b'&' | b'|' | b'+' | b'<' | b'>' => first == second,
        _ => false,
    }
}

#[tactic(auto, unfolding(crate::specs::Signs::is_sign))]
fn comes_before_equals(first: u8) -> bool
    ensures { result ≡ spec.is_sign (first ∷ 61 ∷ []) }
{
    match first {
        b':' | b'=' | b'!' | b'<' | b'>' => true,
        b'+' | b'-' | b'*' | b'/' | b'%' | b'&' | b'|' | b'^' => true,
        _ => false,
    }
}

#[tactic(auto, unfolding(crate::specs::Signs::is_sign))]
fn is_sign_of_three(first: u8, second: u8, third: u8) -> bool
    ensures { result ≡ spec.is_sign (first ∷ second ∷ third ∷ []) }
{
    match (first, second, third) {
        (b'<', b'<', b'=') | (b'>', b'>', b'=') | (b'&', b'^', b'=') | (b'.', b'.', b'.') => true,
        _ => false,
    }
}

/// The length of the longest sign that a text begins with, or 0.
#[tactic(auto, unfolding(crate::specs::Signs::sign_length))]
pub fn sign_len(text: &[u8]) -> usize
    ensures value { result ≡ spec.sign_length text.now }
    ensures within { result ≤ length text.now }
{
    match text {
        [] => 0,
        [first] => usize::from(is_sign_of_one(*first)),
        [first, second] => {
            if is_sign_of_two(*first, *second) {
                2
            } else {
                usize::from(is_sign_of_one(*first))
            }
        }
        [first, second, third, ..] => {
            if is_sign_of_three(*first, *second, *third) {
                3
            } else if is_sign_of_two(*first, *second) {
                2
            } else {
                usize::from(is_sign_of_one(*first))
            }
        }
    }
}
