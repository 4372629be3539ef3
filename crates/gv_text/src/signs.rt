//! Signs as tokens.

ghost use Rattle.std.specs.Prelude.{◌≡◌};
ghost use Rattle.gv_text.specs.Tokens as spec;

use gv_base::Kind;

/// The kind of a sign as a token.
pub fn sign_kind(sign: &[u8]) -> Kind
    ensures { result ≡ spec.sign_kind sign.now }
{
    match sign {
        b";" => Kind::Semi,
        _ => Kind::Sign,
    }
}
