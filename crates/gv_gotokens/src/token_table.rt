//! The tokens of a text.

ghost use Rattle.std.specs.Prelude.{◌≡◌, IfOk};
ghost use Rattle.gv_gosyntax.specs.declared.generated.gosyntax_table.TheConstants.{CLASS_SYNC as SYNC};
ghost use Rattle.gv_gotypes.specs.Scopes as scope;
ghost use Rattle.gv_gotokens.specs.Indexed.{AreOrdered};

use crate::starts::{count_before, count_until, start_or, starts_in};
use gv_base::NoMemory;
use gv_gosyntax::Lexeme;
use gv_gosyntax::generated::gosyntax_table::CLASS_SYNC;
use std::alloc::Global;
use std::marker::Model;

/// The tokens of a text, in order, which contracts see as the list of them. What stands beside one of them is found by halves, in
/// a number of steps that grows by one where there are twice as many tokens. This project's own.
#[derive(Drop)]
pub struct TokenTable<'a> {
    tokens: &'a [Lexeme],
    syncs: Vec<u32>,
}

impl<'a> Model for TokenTable<'a> {
    ghost use Rattle.std.specs.Prelude.{List as Seq};
    ghost use Rattle.gv_gosyntax.specs.declared.lexeme.Lexeme.{Lexeme as AnyLexeme};
    ghost use Rattle.gv_gotokens.specs.Indexed.{AreIndexed};

    ghost Value = { Seq AnyLexeme };

    ghost view = { λ t. t.tokens.now };

    ghost invariant = { λ t. AreIndexed t.tokens.now t.syncs.items };
}

impl<'a> TokenTable<'a> {
    /// These tokens, of which none begins before the one before it.
    pub fn new(alloc: Global, tokens: &'a [Lexeme]) -> Result<TokenTable<'a>, NoMemory>
        requires { AreOrdered tokens.now }
        ensures { IfOk result (λ table. table ≡ tokens.now) }
    {
        let syncs = starts_in(alloc, CLASS_SYNC, tokens)?;
        Ok(TokenTable { tokens, syncs })
    }

    /// Where the first word `sync` begins that stands behind a place; there is none: that place.
    pub fn sync_behind(&self, at: u32) -> u32
        ensures { result ≡ scope.next_of SYNC self.now at }
    {
        let starts = self.syncs.as_slice();
        start_or(starts, count_until(starts, at), at)
    }

    /// Where the last token begins that stands before a place; there is none: that place.
    pub fn before(&self, at: u32) -> u32
        ensures { result ≡ scope.token_before at self.now at }
    {
        let count = count_before(self.tokens, at);
        if count == 0 {
            at
        } else {
            self.tokens[count - 1].start
        }
    }
}
