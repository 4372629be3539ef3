//! What is seen where a walk stands.

use crate::declared::Declared;
use gv_gonames::Locals;
use gv_gotokens::TokenTable;

/// What is seen where a walk stands: what the package declares, and what is declared within the function around. `tokens` are
/// those of the text, in order.
#[derive(Drop)]
pub struct Seen<'a> {
    pub text: &'a [u8],
    pub tokens: TokenTable<'a>,
    pub declared: Declared<'a>,
    pub locals: Locals,
}
